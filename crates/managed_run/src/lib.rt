//! A manager that many threads call. A `Station` is a gate with a keeper as its value, and the gate's cache: callers enter,
//! call and leave, and the administrator changes the policy, each with one turn. Its history is lawful whatever the
//! schedule, and once an acknowledgement is done no pass below its number is out but aborted ones, and no slot is stale.
//!
//! Only the calls that take the turn wait. Only `new`, `call`, `call_asked` and `notify` take memory.
#![tactic(auto)]

mod asking;
mod calls;
mod changes;
mod docket;
mod held;
mod station;

pub use docket::{CoreDocket, Docket, Opened};
pub use held::Held;
pub use station::Station;
