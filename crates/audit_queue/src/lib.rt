//! A queue by which threads send audit lines: each line that a pen posted comes out once, whole, and behind those that the same pen posted before.
//!
//! The taker makes a pen for each client and hands it to the client's thread. The pen posts its client's lines; once the thread has ended the pen is
//! retired, and the taker keeps what it posted. When all pens are retired the queue is drained into a log. Between clients there is no order.
#![tactic(auto)]

mod knowledge;
mod pens;
mod queue;

pub use knowledge::{KeptLines, Knowledge};
pub use pens::{Pen, Taker};
pub use queue::AuditQueue;
