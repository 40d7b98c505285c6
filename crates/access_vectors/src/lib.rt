//! Classes, permissions and access vectors, and who decides them: the words in which object managers ask.
#![tactic(auto)]

mod asked;
mod asker;
mod asking;
mod change;
mod class;
mod decider;
mod perm;
pub mod perms;
mod phase;
mod plainly;
mod questions;
mod steps;
mod vector;

pub use asked::Asked;
pub use asker::Asker;
pub use asking::ask;
pub use change::{NotifyFault, Receipt};
pub use class::{Class, class_name, class_of};
pub use decider::Decider;
pub use perm::{Perm, perm_name, perm_of};
pub use phase::Phase;
pub use plainly::Plainly;
pub use questions::Questions;
pub use steps::Steps;
pub use vector::Vector;
