//! A change of policy over all managers: a coordinator gives each its notice, lets each update, and asks each for its
//! acknowledgement, or forces it. A number is complete only where each manager's history has the acknowledgement of it.
#![tactic(auto)]

mod answers;
mod coordinator;
mod rounds;

pub use answers::{AckAll, NotifyAllFault, Said};
pub use coordinator::Coordinator;
