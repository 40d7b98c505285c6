//! Names, contexts and their identifiers: the words that every other crate speaks.
//!
//! A security context is a text `user:role:type` that says an entity's security attributes; a security
//! identifier (SID) is a number that stands for one context. This crate keeps the small types of lists and
//! texts too, which contracts see as plain lists.
#![tactic(auto)]

mod context;
mod memory;
mod name;
mod piece;
mod rows;
mod sid;
mod sid_table;
mod text;
mod word;

pub use context::{Context, ContextFault, ContextOf, context_form, kept};
pub use memory::Memory;
pub use name::Name;
pub use piece::Piece;
pub use rows::Rows;
pub use sid::Sid;
pub use sid_table::{InternFault, MOST_CONTEXTS, SidTable};
pub use text::Text;
pub use word::{Word, cut};
