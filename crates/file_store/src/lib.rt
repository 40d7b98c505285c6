//! Files and the rights held on them, kept in step: the tree of files, and a grant for each used slot, which is on a file
//! of the tree and for the pair of its client and of that file's present label.
//!
//! Contracts see a value `StoreView`, and through it the state of the plain file manager (`state_of`), the policy number that
//! each used slot follows (`follows`), and under a decider the promise of the whole (`Safe`), which every call keeps.
#![tactic(auto)]

mod changes;
mod files;
mod filling;
mod slots;

pub use files::Files;
pub use filling::Filling;
