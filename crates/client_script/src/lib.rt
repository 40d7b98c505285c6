//! The script of a client, run at the stations of the three managers.
//!
//! A call without a held pass takes one for itself and gives it back; `begin` takes a pass and holds it, `end` gives it back.
//! Each of the client's calls then stands once among its own entries of that manager, in the script's order. Where audit lines are
//! printed the client's pen posts those of each call behind it.
#![tactic(auto)]

mod lines;
mod posting;
mod script;
mod stations;

pub use script::run_script;
pub use stations::{Seats, Stations};
