//! Tests of stations that threads call: a right that a change takes from callers at work, and callers beside fifty changes, whose
//! history a plain judge reads. They end by themselves, and what they compare is the same whatever the schedule.
#![tactic(auto)]

#[cfg(test)]
mod tests;
