//! The three histories of a threaded run: what is known of them, and how they come of three stations.
#![tactic(auto)]

mod ending;
mod retiring;

pub use ending::{Closed, end_run};
pub use retiring::retire_client;
