//! Bytes in and bytes out: what a program reads from and writes to, over memory and over std's streams.
//!
//! A `Source` tells contracts the bytes that it has left, where it knows them, and a `Sink` those that were
//! written to it. Both count their faults, so that a caller's contract can say that a failure came only from
//! one. `ReaderSource` and `WriterSink` are the trusted edge: they tell no bytes.
#![tactic(auto)]

mod calls;
mod memory;
mod sink;
mod source;
mod steady;
mod streams;

pub use memory::{MemorySink, MemorySource};
pub use sink::{Put, Sink};
pub use source::{Got, Source};
pub use steady::{SteadySink, SteadySource};
pub use streams::{ReaderSource, WriterSink};
