//! Rights that are held in slots: open descriptors, attached processes, bound ports. Each is kept with the bits of its mode
//! that are usable, so that a use costs one look-up, and a change of policy finds just those that it makes stale.
//!
//! `Grants` keeps them for one manager, with the manager's callback from mode and vector to bits. Contracts see a record
//! `Rights`; the promise between it and a decider is the word `Fit` of `specs/Rights.antt`.
#![tactic(auto)]

mod callbacks;
mod fills;
mod grant;
mod grants;
mod marks;
mod rule;
mod ruled;
mod slots;
mod store;

pub use callbacks::{AllBits, EachBits};
pub use grant::{AddFault, Grant, Usable};
pub use grants::{Grants, place_of};
pub use rule::{Callback, Rule};
