//! Sessions, as texts: a policy, what is there at the start, the clients, and the lines that are run.
#![tactic(auto)]

mod calls;
mod look_up;
mod passes;
mod reader;
mod run_lines;
mod running;
mod session;
mod setup;
mod setup_lines;

pub use reader::read;
pub use session::{ClientLine, Run, RunLine, Session, SessionParts};
