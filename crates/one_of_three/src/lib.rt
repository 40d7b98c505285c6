//! One of three managers of different kinds, as one manager whose policy is changed.
#![tactic(auto)]

mod three;

pub use three::{OneOfThree, three_of};
