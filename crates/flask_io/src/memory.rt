//! A source and a sink over memory.

ghost use Rattle.std.specs.Prelude.{◌≡◌, ◌<◌, ◌≤◌, [], length, None, Some};
ghost use Rattle.std.specs.Bool.{OnTrue};

use crate::calls::Calls;
use crate::{Got, Put, Sink, Source};
use std::alloc::Global;

/// Bytes in memory as a source. The calls whose numbers, from 1, are listed fail.
#[derive(Debug, Drop)]
pub struct MemorySource<'a> {
    left: &'a [u8],
    calls: Calls<'a>,
}

impl<'a> MemorySource<'a> {
    ghost use Rattle.flask_io.specs.Calls.{none_of};
    ghost use Rattle.flask_io.specs.Memories.{calls_of_source};

    /// A source of these bytes, of which each call whose number is in `failing` fails.
    pub fn new(bytes: &'a [u8], failing: &'a [u64]) -> MemorySource<'a>
        ensures left { ⟦<MemorySource<'a> as Source>⟧.left result ≡ Some bytes.now }
        ensures calls { calls_of_source result ≡ none_of failing.now }
    {
        MemorySource {
            left: bytes,
            calls: Calls::new(failing),
        }
    }
}

impl<'a> Source for MemorySource<'a> {
    ghost use Rattle.flask_io.specs.Streams.{Reads, HasCause};
    ghost use Rattle.flask_io.specs.Calls.{one_more, is_due, is_failed};
    ghost use Rattle.flask_io.specs.Memories.{bytes_left, calls_of_source};
    ghost use Rattle.flask_io.specs.declared.source.Got.{Got};

    ghost left = { λ s. Some (bytes_left s) };

    ghost faults = { λ s. (calls_of_source s).faults };

    /// Reads as much as fits, and fails exactly where the number of this call is listed.
    fn read(&mut self, buf: &mut [u8]) -> Got
        requires { 0 < length buf.old }
        ensures reads { Reads result (Some (bytes_left self.old)) (Some (bytes_left self.new)) buf.new }
        ensures cause { HasCause (calls_of_source self.old).faults (calls_of_source self.new).faults (result ≡ Got.Failed) }
        ensures calls { calls_of_source self.new ≡ one_more (calls_of_source self.old) (is_failed result) }
        ensures fails { is_failed result ≡ is_due (calls_of_source self.old) }
    {
        if self.calls.next_fails() {
            return Got::Failed;
        }
        let n = self.left.len().min(buf.len());
        if n == 0 {
            return Got::End;
        }
        let (front, rest) = self.left.split_at(n);
        buf[..n].copy_from_slice(front);
        self.left = rest;
        Got::Bytes(n)
    }
}

/// Bytes in memory as a sink. The calls whose numbers, from 1, are listed fail, and so does one for which
/// memory is wanting.
#[derive(Debug, Drop)]
pub struct MemorySink<'a> {
    bytes: Vec<u8>,
    calls: Calls<'a>,
}

impl<'a> MemorySink<'a> {
    ghost use Rattle.flask_io.specs.Calls.{none_of};
    ghost use Rattle.flask_io.specs.Memories.{calls_of_sink};

    /// An empty sink, of which each call whose number is in `failing` fails.
    pub fn new(alloc: Global, failing: &'a [u64]) -> MemorySink<'a>
        ensures written { ⟦<MemorySink<'a> as Sink>⟧.written result ≡ Some [] }
        ensures calls { calls_of_sink result ≡ none_of failing.now }
    {
        MemorySink {
            bytes: Vec::new(alloc),
            calls: Calls::new(failing),
        }
    }

    /// The bytes that were written.
    pub fn bytes(&self) -> &[u8]
        ensures { ⟦<MemorySink<'a> as Sink>⟧.written self.now ≡ Some result.now }
    {
        self.bytes.as_slice()
    }
}

impl<'a> Sink for MemorySink<'a> {
    ghost use Rattle.flask_io.specs.Streams.{Writes, Offers, HasCause};
    ghost use Rattle.flask_io.specs.Calls.{one_more, is_due, is_refused};
    ghost use Rattle.flask_io.specs.Memories.{bytes_written, calls_of_sink};
    ghost use Rattle.flask_io.specs.declared.sink.Put.{Put};

    ghost written = { λ s. Some (bytes_written s) };

    ghost offered = { λ _. None };

    ghost faults = { λ s. (calls_of_sink s).faults };

    /// Takes the whole piece, or fails: where the number of this call is listed, or memory is wanting.
    fn write(&mut self, piece: &[u8]) -> Put
        requires { 0 < length piece.now }
        ensures writes { Writes result (Some (bytes_written self.old)) (Some (bytes_written self.new)) piece.now }
        ensures offers { Offers None None piece.now }
        ensures cause { HasCause (calls_of_sink self.old).faults (calls_of_sink self.new).faults (result ≡ Put.Failed) }
        ensures calls { calls_of_sink self.new ≡ one_more (calls_of_sink self.old) (is_refused result) }
        ensures fails { OnTrue (is_due (calls_of_sink self.old)) (result ≡ Put.Failed) }
    {
        if self.calls.next_fails() {
            return Put::Failed;
        }
        if self.bytes.extend_from_slice(piece).is_err() {
            self.calls.fail();
            return Put::Failed;
        }
        Put::Took(piece.len())
    }
}
