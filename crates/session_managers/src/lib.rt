//! The three managers of a session on one thread, and the counts of its summary.
//!
//! A `SessionManagers` does what a session's lines ask: clients' calls and passes, and the administrator's change of policy across the
//! three managers, which is complete only where each of them has acknowledged it.
#![tactic(auto)]

mod acting;
mod acts;
mod changes;
mod managers;
mod one_manager;
mod opening;

pub use acting::{Act, Call, ClientAct, Got, Reply};
pub use changes::Acks;
pub use managers::SessionManagers;
pub use one_manager::OneManager;
pub use opening::Openings;
