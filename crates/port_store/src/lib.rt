//! Bound ports and the rights held on them, kept in step: the ports that are bound, each with the messages that wait there,
//! and a grant for each used slot, which is on a bound port and for the pair of its client and of that port's label.
//!
//! Contracts see a value `StoreView`, and through it the state of the plain port manager (`state_of`), the policy number that
//! each used slot follows (`follows`), and under a decider the promise of the whole (`Safe`), which every call keeps.
#![tactic(auto)]

mod bindings;
mod filling;
mod labels;
mod messages;
mod ports;
mod queue;
mod slots;
mod table;

pub use filling::Filling;
pub use ports::Ports;
pub use queue::{MESSAGE_LIMIT, Queue};
