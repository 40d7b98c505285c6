//! Histories of the three managers as texts, and what their summary counts.
#![tactic(auto)]

mod counts;
mod entries;

pub use counts::{Counts, counts_of};
pub use entries::{put_entry, put_heading};
