//! What the process manager is asked and what it answers, and the plain process manager: the definition by which every
//! answer of the real one is judged. `specs/Plain.antt` is where to begin.
#![tactic(auto)]

mod call;
mod example;
mod opening;
mod process;

pub use call::{ProcessCall, ProcessReply};
pub use example::one_client;
pub use opening::ProcessOpening;
pub use process::Process;
