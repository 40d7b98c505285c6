//! A source and a sink that never fail.

ghost use Rattle.std.specs.Prelude.{◌≡◌, ◌<◌, length, Some, None};

use crate::{Got, Put, Sink, Source};

/// Bytes in memory as a source that never fails, and gives them in pieces of a stated length.
#[derive(Debug, Drop)]
pub struct SteadySource<'a> {
    left: &'a [u8],
    step: usize,
}

impl<'a> SteadySource<'a> {
    /// A source of these bytes, which gives at most `step` of them at a time, and one where `step` is 0.
    pub fn new(bytes: &'a [u8], step: usize) -> SteadySource<'a>
        ensures { ⟦<SteadySource<'a> as Source>⟧.left result ≡ Some bytes.now }
    {
        SteadySource { left: bytes, step }
    }
}

impl<'a> Source for SteadySource<'a> {
    ghost use Rattle.flask_io.specs.Streams.{Reads, HasCause};
    ghost use Rattle.flask_io.specs.Steady.{bytes_left};
    ghost use Rattle.flask_io.specs.declared.source.Got.{Got};

    ghost left = { λ source. Some (bytes_left source) };

    ghost faults = { λ source. 0 };

    /// Reads as much as fits and as a piece may have. It never fails.
    fn read(&mut self, buf: &mut [u8]) -> Got
        requires { 0 < length buf.old }
        ensures reads { Reads result (Some (bytes_left self.old)) (Some (bytes_left self.new)) buf.new }
        ensures cause { HasCause 0 0 (result ≡ Got.Failed) }
        ensures steady { result ≡ Got.Failed → ⊥ }
    {
        let n = self.left.len().min(buf.len()).min(self.step.max(1));
        if n == 0 {
            return Got::End;
        }
        let (front, rest) = self.left.split_at(n);
        buf[..n].copy_from_slice(front);
        self.left = rest;
        Got::Bytes(n)
    }
}

/// A sink that never fails: it counts the bytes that it takes and keeps none, so it tells none either.
#[derive(Debug, Drop)]
pub struct SteadySink {
    taken: u64,
    step: usize,
}

impl SteadySink {
    /// A sink that has taken nothing, and takes at most `step` bytes of a piece at a time, and one where `step` is 0.
    pub fn new(step: usize) -> SteadySink
        ensures { result.taken ≡ 0 }
    {
        SteadySink { taken: 0, step }
    }

    /// How many bytes it took, or the greatest number of 64 bits where it took more.
    pub fn taken(&self) -> u64
        ensures { result ≡ self.now.taken }
    {
        self.taken
    }
}

impl Sink for SteadySink {
    ghost use Rattle.std.specs.Prelude.{min, ◌+◌, ◌-◌, ◌^◌};
    ghost use Rattle.flask_io.specs.Streams.{Writes, Offers, HasCause};
    ghost use Rattle.flask_io.specs.Steady.{taken_of};
    ghost use Rattle.flask_io.specs.declared.sink.Put.{Put};

    ghost written = { λ sink. None };

    ghost offered = { λ _. None };

    ghost faults = { λ sink. 0 };

    /// Takes as much of the piece as may go at a time. It never fails.
    fn write(&mut self, piece: &[u8]) -> Put
        requires { 0 < length piece.now }
        ensures writes { Writes result None None piece.now }
        ensures offers { Offers None None piece.now }
        ensures cause { HasCause 0 0 (result ≡ Put.Failed) }
        ensures steady { result ≡ Put.Failed → ⊥ }
        ensures counts { self.new.taken ≡ min (self.old.taken + taken_of result) (2 ^ 64 - 1) }
    {
        let n = piece.len().min(self.step.max(1));
        self.taken = self.taken.saturating_add(n as u64);
        Put::Took(n)
    }
}
