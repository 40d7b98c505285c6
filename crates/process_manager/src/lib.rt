//! The process manager: processes that are started, get labels, signals and their end, and slots that are attached to them.
//!
//! `ProcessCore` is the manager's state. Its calls answer as the plain manager of `process_calls` does, which keeps finite
//! maps and no cache, and asks at each use of a slot. The code keeps for each slot whether the whole of its mode is usable:
//! a use through a slot that follows the call's policy number looks at that and asks nobody.
#![tactic(auto)]

mod attaches;
mod ends;
mod execs;
mod forks;
mod peeks;
mod pokes;
mod process_core;
mod replies;
mod serving;
mod slots;
mod stats;
mod waits;

pub use process_calls::{Process, ProcessCall, ProcessOpening, ProcessReply};
pub use process_core::{ProcessCore, new};
