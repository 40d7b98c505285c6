//! The text of a threaded run, written: the three histories, the audit lines and the summary.
#![tactic(auto)]

mod audit;
mod histories;
mod run;
mod summary;

pub use histories::Histories;
pub use run::write_run;
