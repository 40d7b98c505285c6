//! Tests of how a run ends where reads and writes fail, or bytes come and go one by one.

use flask_io::{Got, MemorySink, MemorySource, Put, Sink, Source};
use flask_sid::{Piece, Word};
use flaskd_run::{NoStops, Status, flaskd};
use std::alloc::Global;
use std::sync::Wait;
use std::test::Fail;
use std::thread::Threads;

const SMALLEST: &[u8] = b"policy 1
context u:r:t
version
allow t t file read
allow t t dir search
session
file /a u:r:t hello
client alice u:r:t
run
alice file open 0 /a r
alice file read 0 0 16
";

const ANSWER: &[u8] = b"10 alice file 0 done
11 alice file 0 data 5 hello
calls 2 denied 0 changes 0
";

/// A source that gives one byte at a time, and tells none; after so many reads each one fails.
#[derive(Drop)]
struct Drops<'a> {
    left: &'a [u8],
    good: u64,
    faults: u64,
}

impl Source for Drops<'_> {
    ghost use Rattle.std.specs.Prelude.{None};

    ghost left = { λ drops. None };

    ghost faults = { λ drops. drops.faults };

    fn read(&mut self, buf: &mut [u8]) -> Got {
        if self.good == 0 {
            self.faults = self.faults.saturating_add(1);
            return Got::Failed;
        }
        self.good = self.good.saturating_sub(1);
        let Some((first, rest)) = self.left.split_first() else {
            return Got::End;
        };
        buf[0] = *first;
        self.left = rest;
        Got::Bytes(1)
    }
}

/// A sink that takes one byte at a time, and tells none.
#[derive(Drop)]
struct Sips {
    taken: Piece,
    faults: u64,
}

impl Sink for Sips {
    ghost use Rattle.std.specs.Prelude.{None};

    ghost written = { λ sips. None };

    ghost offered = { λ sips. None };

    ghost faults = { λ sips. sips.faults };

    fn write(&mut self, piece: &[u8]) -> Put {
        if self.taken.push(piece[0]).is_err() {
            self.faults = self.faults.saturating_add(1);
            return Put::Failed;
        }
        Put::Took(1)
    }
}

/// Runs the smallest session between ends of which the reads and the writes of these numbers, from 1, fail.
fn run<'a, R: Threads + Wait + Sync>(
    rt: &R,
    alloc: Global,
    reads: &[u64],
    writes: &'a [u64],
) -> (Status, MemorySink<'a>) {
    let words = [Word::new(b"serial")];
    let mut source = MemorySource::new(SMALLEST, reads);
    let mut sink = MemorySink::new(alloc, writes);
    let status = flaskd(rt, alloc, &words, &mut source, &mut sink, &NoStops);
    (status, sink)
}

#[test]
fn ends_by_the_first_cause(rt: HostRuntime) -> Result<(), Fail> {
    let nothing = &ANSWER[..0];
    let first_line = &ANSWER[..21];
    let two_lines = &ANSWER[..50];
    for (reads, writes, status, written) in [
        (&[][..], &[][..], Status::Ok, ANSWER),
        (&[1][..], &[], Status::ReadFault, nothing),
        (&[2][..], &[], Status::ReadFault, nothing),
        (&[], &[1][..], Status::WriteFault, nothing),
        (&[], &[2][..], Status::WriteFault, first_line),
        (&[], &[3][..], Status::WriteFault, two_lines),
    ] {
        let (ended, sink) = run(&rt, rt.alloc(), reads, writes);
        assert_eq!(rt; ended, status);
        assert_eq!(rt; sink.bytes(), written);
    }
    Ok(())
}

#[test]
fn a_failed_read_writes_nothing(rt: HostRuntime) -> Result<(), Fail> {
    let words = [Word::new(b"serial")];
    for good in 0..20 {
        let mut source = Drops {
            left: SMALLEST,
            good,
            faults: 0,
        };
        let mut sink = MemorySink::new(rt.alloc(), &[]);
        let ended = flaskd(&rt, rt.alloc(), &words, &mut source, &mut sink, &NoStops);
        assert_eq!(rt; ended, Status::ReadFault);
        assert!(rt; sink.bytes().is_empty());
    }
    Ok(())
}

#[test]
fn slow_ends_change_nothing(rt: HostRuntime) -> Result<(), Fail> {
    let words = [Word::new(b"serial")];
    let mut source = Drops {
        left: SMALLEST,
        good: u64::MAX,
        faults: 0,
    };
    let mut sink = Sips {
        taken: Piece::new(rt.alloc()),
        faults: 0,
    };
    let ended = flaskd(
        &rt,
        rt.alloc(),
        words.as_slice(),
        &mut source,
        &mut sink,
        &NoStops,
    );
    assert_eq!(rt; ended, Status::Ok);
    assert_eq!(rt; sink.taken.as_bytes(), ANSWER);
    Ok(())
}

const POLICY: &[u8] = b"policy 1
context u:r:a_t
context u:r:b_t
context u:r:c_t
version
allow a_t b_t file write
allow c_t b_t file read
";

const PATH: &[u8] = b"path 2
a_t b_t a_t b_t file write
b_t c_t c_t b_t file read
";

#[test]
fn a_path_goes_out_line_by_line(rt: HostRuntime) -> Result<(), Fail> {
    let words = [
        Word::new(b"flow"),
        Word::new(b"0"),
        Word::new(b"a_t"),
        Word::new(b"c_t"),
    ];
    for (writes, status, written) in [
        (&[][..], Status::Ok, PATH),
        (&[1][..], Status::WriteFault, &PATH[..0]),
        (&[3][..], Status::WriteFault, &PATH[..34]),
    ] {
        let mut source = MemorySource::new(POLICY, &[]);
        let mut sink = MemorySink::new(rt.alloc(), writes);
        let ended = flaskd(&rt, rt.alloc(), &words, &mut source, &mut sink, &NoStops);
        assert_eq!(rt; ended, status);
        assert_eq!(rt; sink.bytes(), written);
    }
    Ok(())
}
