//! Tests of the lower crates and of the two printers. They stand in a crate of their own, since a crate with tests is proved once
//! with them and once without.
#![tactic(auto)]

#[cfg(test)]
mod asking;
#[cfg(test)]
mod gate_words;
#[cfg(test)]
mod numbers;
#[cfg(test)]
mod printed_policies;
#[cfg(test)]
mod printed_sessions;
#[cfg(test)]
mod sids;
#[cfg(test)]
mod tree;
