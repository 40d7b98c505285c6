//! The program between ends that never fail.

ghost use Rattle.command_line.specs.Commands.{command_of};
ghost use Rattle.run_ends.specs.Complete.{IsComplete};

use flask_io::{SteadySink, SteadySource};
use flask_sid::Word;
use flaskd_run::{NoStops, Status, flaskd};
use std::alloc::Global;
use std::sync::Wait;
use std::thread::Threads;

/// Runs the program by the words of its command on this text, between a source and a sink that never fail and give and take at most `step`
/// bytes at a time. The status is the one that the text has, or `Memory`; what is written is counted and thrown away.
pub fn run_steady<R: Threads + Wait + Sync>(
    rt: &R,
    alloc: Global,
    words: &[Word<'_>],
    text: &[u8],
    step: usize,
) -> Status
    ensures { IsComplete result (command_of words.now) text.now }
{
    let mut source = SteadySource::new(text, step);
    let mut sink = SteadySink::new(step);
    flaskd(rt, alloc, words, &mut source, &mut sink, &NoStops)
}
