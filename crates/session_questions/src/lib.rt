//! What each line of a session comes to where the session is run, and what its call asks.
#![tactic(auto)]

mod copies;
mod lines;
mod running;

pub use lines::{LineQuestions, LineRun};
pub use running::{SessionRun, run_session};
pub use session_runner::LineAnswer;
