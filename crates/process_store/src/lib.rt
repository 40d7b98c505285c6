//! Processes and the rights held on them, kept in step: a table of processes by their numbers, and a grant for each used
//! slot, which is on a process of the table and for the pair of its client and of that process's present label.
//!
//! Contracts see a value `StoreView`, and through it the state of the plain process manager (`state_of`), the policy number that
//! each used slot follows (`follows`), and under a decider the promise of the whole (`Safe`), which every call keeps.
#![tactic(auto)]

mod attachment;
mod changes;
mod processes;
mod slots;

pub use attachment::Attachment;
pub use processes::Processes;
