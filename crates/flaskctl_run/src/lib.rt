//! What `flaskctl` does: its answers about a policy or a session, and how they are printed.
#![tactic(auto)]

mod answering;
mod asking;
mod calls;
mod checking;
mod counting;
mod differing;
mod finding;
mod holding;
mod input;
mod json;
mod known;
mod notes;
mod refusing;
mod report;
mod session;
mod show;
mod source;
mod stop;
mod text;
mod unasked;
mod values;
mod why;
mod wording;

pub use answering::answer;
pub use input::read_input;
pub use report::Report;
pub use stop::Stop;
