//! Answers about a policy: which line decides a permission, who has it, which versions give it, and what two versions decide differently.
#![tactic(auto)]

mod changing;
mod deciding;
mod differing;
mod holding;
mod relabelling;

pub use changing::{Change, changes};
pub use deciding::{Decision, decision_on, decisions};
pub use differing::{Difference, differences};
pub use holding::{Holder, allowing_versions, holders};
pub use relabelling::{Relabel, relabels};
