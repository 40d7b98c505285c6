//! The end of a station: it is closed once its seats are retired, and a change that is pending then is settled.
#![tactic(auto)]

mod ending;

pub use ending::{end, settle};
