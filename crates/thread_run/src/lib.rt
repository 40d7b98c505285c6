//! A session's run in threads: a worker for each client, the administrator's beside them, the end of the three stations, and the
//! audit lines that the workers posted.
#![tactic(auto)]

mod administrator;
mod clients;
mod leaving;
mod managers;
mod prepared;
mod run;
mod slots;

pub use prepared::{Prepared, Ran, Staff};
pub use run::run_on_threads;
