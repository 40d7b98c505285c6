//! The compiled form of a policy: what its versions decide, by the numbers of types and of contexts.
//!
//! Rows of cells by the places of types answer with two loads and no search what the policy's lines decide by the last of
//! them that matches. The contexts to which a policy leads get identifiers: the declared ones first, and then the others
//! in byte order of their texts.
#![tactic(auto)]

mod block;
mod blocks;
mod broken;
mod catalogue;
mod change;
mod closing;
mod compiling;
mod contexts;
mod declared;
mod fill;
mod found;
mod given;
mod kind;
mod kind_set;
mod kinds;
mod marks;
mod named_sets;
mod names;
mod nevers;
mod order;
mod place;
mod row;
mod steps;
mod table;
mod user_role;
mod vectors;

pub use broken::Break;
pub use catalogue::Catalogue;
pub use compiling::{CompileFault, compile};
pub use given::GivenRows;
pub use kind::Kind;
pub use kinds::Kinds;
pub use nevers::first_break;
pub use vectors::VectorRows;
