//! Tests of stations: limits, passes, the cache over three numbers, forced acknowledgements, rights that a change takes, and want of memory.
#![tactic(auto)]

#[cfg(test)]
mod board;
#[cfg(test)]
mod fake;
#[cfg(test)]
mod passes;
#[cfg(test)]
mod steps;
#[cfg(test)]
mod taking;
