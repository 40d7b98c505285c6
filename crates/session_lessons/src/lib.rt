//! What is learned from a session: what its clients were denied under a version of its policy.
#![tactic(auto)]

mod learner;
mod learning;

pub use learning::{Learnt, learn};
