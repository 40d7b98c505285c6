//! Prints policies as texts: each declared type in a line of its own, then the other declarations, then each version
//! with its rule lines.
//!
//! What is printed reads as the same policy again, apart from the numbers of its lines.
#![tactic(auto)]

mod declarations;
mod policy;
mod rules;

pub use policy::{print, put_policy};
pub use rules::put_perms;
