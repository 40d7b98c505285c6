//! A session, run on one thread: a `Runner` does what its lines ask, one after another, and a `Recorder` is given what each came to.
#![tactic(auto)]

mod answering;
mod opening;
mod outcomes;
mod recorder;
mod runner;
mod running;

pub use opening::{Opened, RunParts, open, run_parts};
pub use outcomes::{Called, Caller, LineAnswer};
pub use recorder::Recorder;
pub use runner::Runner;
