//! Tasks in threads: one at each of many values, and one of another kind beside them. Every thread is joined, and no call takes
//! memory: where a thread cannot be started its work is done by the one that would start it.
#![tactic(auto)]

mod beside;
mod each;

pub use beside::{Crew, run_beside};
pub use each::{Task, run_each};
