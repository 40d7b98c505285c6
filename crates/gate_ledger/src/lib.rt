//! The smallest manager over a gate: a list of lines, each added under the turn. It shows how a value is a journal,
//! how a call and a policy change run at a gate, and that the gate works before any manager stands on it.
#![tactic(auto)]

mod change;
mod ledger;
mod station;

pub use access_vectors::NotifyFault;
pub use change::{Acknowledged, acknowledge, notify};
pub use ledger::{Ledger, Line};
pub use station::call;
