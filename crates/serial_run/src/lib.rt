//! A session, run in the text's order on one thread, and what is printed of it.
#![tactic(auto)]

mod ending;
mod printing;
mod quiet;
mod running;

pub use running::{serial, summary};
