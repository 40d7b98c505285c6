//! Tests of the gate, with the smallest value that it can keep. They stand in a crate of their own, since a crate with tests is proved
//! once with them and once without.
#![tactic(auto)]

#[cfg(test)]
mod gate;
