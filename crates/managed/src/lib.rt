//! A manager as the administrator of a policy change sees it.
//!
//! `Managed` is what the administrator asks of a manager: a notice, updates, an acknowledgement, which may be forced.
//! `Serves` is what clients do at one between these. `Plain` is a manager on one thread: a keeper, and the passes that its
//! clients hold.
#![tactic(auto)]

mod administered;
mod managed;
mod plain;
mod serves;

pub use managed::{Event, Managed, Shown};
pub use plain::Plain;
pub use serves::Serves;
