//! Histories of object managers: what a manager did, kept so that it is lawful.
//!
//! A `Core` is a manager of objects with its plain manager as a meaning: the manager that keeps no cache and no
//! rights, and asks the policy in force. A `Keeper` holds a core and its history, and its type keeps that the
//! history is lawful and the state is the replay of it. It speaks of no thread, no policy text and no cache.
#![tactic(auto)]

mod answers;
mod core_trait;
mod entry;
mod keeper;
mod passes;

pub use access_vectors::{NotifyFault, Receipt};
pub use answers::{Ack, Answer};
pub use core_trait::Core;
pub use entry::{Entry, History};
pub use keeper::Keeper;
pub use passes::Passes;
