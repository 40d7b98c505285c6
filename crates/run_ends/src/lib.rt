//! How a run ends. Between ends that never fail it is complete. Tests show what no clause of the top call says: that memory suffices, and how a
//! run ends at failing and at slow ends. The tests stand in a crate of their own, since a crate with tests is proved once with them and once
//! without.
#![tactic(auto)]

#[cfg(test)]
mod orders;
mod steady;
#[cfg(test)]
mod tests;

pub use steady::run_steady;
