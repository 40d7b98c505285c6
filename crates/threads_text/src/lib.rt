//! What a threaded run prints: three histories, audit lines and a summary.
#![tactic(auto)]

mod counting;

pub use counting::counts_of_run;
