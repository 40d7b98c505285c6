//! A session run by a worker for each client and one for the administrator.
#![tactic(auto)]

mod plan;
mod run;

pub use plan::Plan;
pub use run::run_plan;
