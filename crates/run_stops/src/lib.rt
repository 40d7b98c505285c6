//! Where a test may hold a worker of a threaded run.
#![tactic(auto)]

mod stops;

pub use stops::{NoStops, Stops};
