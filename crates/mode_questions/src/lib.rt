//! One operation of a manager, how it asks, and how a plain manager's answers are put together of questions.
//!
//! An `Operation` has its `Caller`, the asker and the questions so far. `ask_mode` asks at the opening of a slot; `ask_use` and
//! `ask_whole` ask at each use of one: where the slot follows the call's policy number its bits tell, and no cache is looked up.
#![tactic(auto)]

mod doubled;
mod modes;
mod operation;
mod slot_uses;

pub use doubled::Doubled;
pub use operation::{Caller, Operation};
pub use slot_uses::SlotUse;
