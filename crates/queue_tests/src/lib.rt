//! Tests of the queue of audit lines: two clients' threads post, and the log has of each what it posted, in order.
#![tactic(auto)]

#[cfg(test)]
mod tests;
