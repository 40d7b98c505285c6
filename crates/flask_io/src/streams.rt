//! A source and a sink over std's streams.

ghost use Rattle.std.specs.Prelude.{None};

use crate::{Got, Put, Sink, Source};
use std::io::{Error, ErrorKind, Read, Write};

/// A std reader as a source, which tells no bytes. An interrupted read is tried again.
#[derive(Drop)]
pub struct ReaderSource<R: Read + Drop> {
    reader: R,
    faults: u64,
}

impl<R: Read + Drop> ReaderSource<R> {
    /// A source over this reader.
    pub fn new(reader: R) -> ReaderSource<R> {
        ReaderSource { reader, faults: 0 }
    }
}

impl<R: Read + Drop> Source for ReaderSource<R> {
    ghost left = { λ _. None };

    ghost faults = { λ s. s.faults };

    /// Reads into the front of the buffer, where an interrupted read is tried again.
    fn read(&mut self, buf: &mut [u8]) -> Got {
        'tries: for _ in 0..u64::MAX {
            match self.reader.read(buf) {
                Ok(0) => return Got::End,
                Ok(n) => return Got::Bytes(n),
                Err(e) if is_interrupted(&e) => continue,
                Err(_) => break,
            }
        }
        self.faults = self.faults.saturating_add(1);
        Got::Failed
    }
}

/// A std writer as a sink, which tells no bytes. An interrupted write is tried again, each write is flushed,
/// and one that takes no byte is a fault.
#[derive(Drop)]
pub struct WriterSink<W: Write + Drop> {
    writer: W,
    faults: u64,
}

impl<W: Write + Drop> WriterSink<W> {
    /// A sink over this writer.
    pub fn new(writer: W) -> WriterSink<W> {
        WriterSink { writer, faults: 0 }
    }
}

impl<W: Write + Drop> Sink for WriterSink<W> {
    ghost written = { λ _. None };

    ghost offered = { λ _. None };

    ghost faults = { λ s. s.faults };

    /// Offers the piece, where an interrupted write is tried again, and flushes what was taken of it.
    fn write(&mut self, piece: &[u8]) -> Put {
        'tries: for _ in 0..u64::MAX {
            match self.writer.write(piece) {
                Ok(n) if n > 0 && self.writer.flush().is_ok() => return Put::Took(n),
                Err(e) if is_interrupted(&e) => continue,
                _ => break,
            }
        }
        self.faults = self.faults.saturating_add(1);
        Put::Failed
    }
}

fn is_interrupted(e: &Error) -> bool {
    e.kind() == ErrorKind::Interrupted
}
