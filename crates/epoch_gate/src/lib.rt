//! The gate of a threaded manager: callers enter and leave under a policy number with one atomic step each, take
//! turns at the manager's value, and look up and fill cache rows without waiting; the administrator raises the
//! number and counts the older passes that are still out.
//!
//! Every step keeps the gate's rule (`gate_rule`). Only `take` and `take_admin` wait, and only `new` takes memory.
#![tactic(auto)]

mod admin;
mod ends;
mod fault;
mod gate;
mod office;
mod row;
mod seat;
mod steps;
mod turn;

pub use admin::Admin;
pub use fault::GateFault;
pub use gate::{Gate, Spent};
pub use office::SeatFault;
pub use seat::Seat;
