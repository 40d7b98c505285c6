//! Prints what is learned from denials: a line of `allow` for each grant that may be made, and then one of `refused` for each
//! that a `neverallow` line matches.
#![tactic(auto)]

mod grants;

pub use grants::write_learned;
