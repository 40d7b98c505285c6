//! Allow lines from denials: which lines an administrator would append to a version so that each denied question is
//! allowed and nothing else is, and apart from them what a `neverallow` line refuses.
#![tactic(auto)]

mod cells;
mod denials;
mod grant;
mod learning;
mod names;

pub use grant::{Grant, GrantKind, Learned};
pub use learning::learned;
pub use names::type_name;
