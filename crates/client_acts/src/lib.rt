//! What a client does at one station: it takes a pass and holds it, gives it back, or does a call, under the pass that it holds
//! or else under one that it takes for the call alone. A call says its audit lines.
#![tactic(auto)]

mod acts;
mod worker;

pub use acts::{begin, do_call, end};
pub use worker::{Audit, Worker};
