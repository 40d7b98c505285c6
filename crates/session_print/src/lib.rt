//! Prints sessions as texts: the policy, what is there at the start, the clients, and the lines that run.
//!
//! What is printed reads as the same session again, apart from the numbers of its lines.
#![tactic(auto)]

mod calls;
mod runs;
mod session;
mod setup;
mod words;

pub use session::print;
pub use words::{client_name, put_manager};
