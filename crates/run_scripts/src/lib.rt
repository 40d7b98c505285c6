//! The lines of a session, as one script for each client and one for the administrator.
#![tactic(auto)]

mod owning;
mod splitting;

pub use splitting::{Scripts, split};
