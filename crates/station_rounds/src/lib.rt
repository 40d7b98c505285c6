//! Threads at a station: two callers of the example board beside an administrator that changes its policy, and a plain judge of the history
//! that they leave. Tests and trials of stations stand on it, and no program does.
#![tactic(auto)]

mod board;
mod callers;
mod changes;
mod judge;
mod pace;
mod round;
mod run;

pub use board::{Board, Chair, Office, Versions, opened};
pub use callers::{Caller, Script, Work, seated};
pub use judge::{PlainBoard, judged};
pub use pace::Pace;
pub use round::{Round, run_round};
pub use run::{retire_all, work, work_beside};
