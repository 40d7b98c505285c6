//! What the lines of a session come to, as lines of words.
#![tactic(auto)]

mod answers;
mod changes;

pub use answers::{front_of_call, put_answer, put_call};
