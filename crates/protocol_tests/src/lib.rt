//! Tests of the protocol of a change: the history of a manager, the numbers of the server, the coordinator, and one board. They
//! stand in a crate of their own, since a crate with tests is proved once with them and once without.
#![tactic(auto)]

#[cfg(test)]
mod board;
#[cfg(test)]
mod by_version;
#[cfg(test)]
mod changes;
#[cfg(test)]
mod histories;
#[cfg(test)]
mod numbering;
