//! What a run writes: its lines, each whole in one write, the audit lines of a log, and how it stops; and what it knows of its
//! session.
#![tactic(auto)]

mod auditing;
mod gathering;
mod setting;
mod stop;

pub use auditing::write_audit;
pub use gathering::put_gathered;
pub use setting::Setting;
pub use stop::{RunStop, put_line};
