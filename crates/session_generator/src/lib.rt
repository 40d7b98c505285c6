//! Sessions that are made of three numbers: a seed, how many clients, and how many lines that run.
#![tactic(auto)]

mod draws;
mod making;
mod policy;
mod runs;

pub use making::generated;
