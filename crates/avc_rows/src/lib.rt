//! The access vector cache over a gate's rows: a look, and on a miss the decider and a fill. It never waits and takes
//! no memory. No row is ever cleared: a row is kept by the policy number that it was made under.
#![tactic(auto)]

mod cached;
mod rows;

pub use cached::Cached;
pub use rows::{Checked, Origin, check};
