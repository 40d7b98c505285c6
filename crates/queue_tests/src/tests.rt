//! The tests.

ghost use Rattle.std.specs.Prelude.{◌≡◌};

use access_vectors::Asked;
use access_vectors::perms::FILE_READ;
use audit_log::{AuditLine, AuditLog};
use audit_queue::{AuditQueue, Pen};
use flask_sid::Sid;
use std::sync::Wait;
use std::test::Fail;
use std::thread;
use std::thread::Threads;

/// How many lines each client posts.
const LINES: u32 = 100;

/// Posts so many lines of the pen's client, whose marks count from 1, and gives the pen back.
fn posted<R: Wait>(rt: &R, queue: &AuditQueue, pen: Pen, sid: Sid) -> Pen
    requires { pen.queue ≡ queue.now }
    ensures { result.queue ≡ queue.now }
{
    let mut own = pen;
    'marks: for mark in 1..=LINES {
        let line = line_of(own.number(), mark, sid);
        let _posted = queue.post(rt, &mut own, line);
    }
    own
}

/// Has two clients post beside each other, each in a thread of its own.
fn post_both<R: Threads + Wait + Sync>(
    rt: &R,
    queue: &AuditQueue,
    first: Pen,
    second: Pen,
    sid: Sid,
) -> (Pen, Pen)
    requires first { first.queue ≡ queue.now }
    requires second { second.queue ≡ queue.now }
    ensures first { result.0.queue ≡ queue.now }
    ensures second { result.1.queue ≡ queue.now }
{
    thread::join(
        rt,
        move || -> Pen
            requires { first.queue ≡ queue.now }
            ensures { result.queue ≡ queue.entry.now }
        { posted(rt, queue, first, sid) },
        move || -> Pen
            requires { second.queue ≡ queue.now }
            ensures { result.queue ≡ queue.entry.now }
        { posted(rt, queue, second, sid) },
    )
}

/// A line of a client.
fn line_of(client: u8, mark: u32, sid: Sid) -> AuditLine
    ensures { result.client ≡ client }
{
    let asked = Asked {
        s: sid,
        t: sid,
        perm: FILE_READ,
        yes: false,
    };
    AuditLine {
        client,
        mark,
        asked,
        number: 0,
    }
}

/// Whether these are the lines of a client that posted so many.
fn are_whole(lines: &[AuditLine], client: u8, count: usize) -> bool {
    let in_order = lines
        .iter()
        .zip(1..)
        .all(|(line, mark)| line.client == client && line.mark == mark);
    in_order && lines.len() == count
}

#[test]
fn each_client_s_lines_arrive_whole_and_in_order(rt: HostRuntime) -> Result<(), Fail> {
    let alloc = rt.alloc();
    let sid = Sid::of(1).ok_or("a number of a context")?;
    let (queue, mut taker) = AuditQueue::new(alloc, 2)?;
    let first = queue.pen(&mut taker);
    let second = queue.pen(&mut taker);
    let (first, second) = post_both(&rt, &queue, first, second, sid);
    queue.retire(second, &mut taker);
    queue.retire(first, &mut taker);
    let mut log = AuditLog::new(alloc, 2)?;
    queue.drain(&rt, taker, &mut log)?;
    assert!(rt; are_whole(log.of(0), 0, LINES as usize));
    assert!(rt; are_whole(log.of(1), 1, LINES as usize));
    Ok(())
}

#[test]
fn a_pen_that_posted_nothing_has_no_line(rt: HostRuntime) -> Result<(), Fail> {
    let alloc = rt.alloc();
    let sid = Sid::of(1).ok_or("a number of a context")?;
    let (queue, mut taker) = AuditQueue::new(alloc, 62)?;
    let idle = queue.pen(&mut taker);
    let mut busy = queue.pen(&mut taker);
    queue.post(&rt, &mut busy, line_of(1, 7, sid))?;
    queue.retire(idle, &mut taker);
    queue.retire(busy, &mut taker);
    let mut log = AuditLog::new(alloc, 62)?;
    queue.drain(&rt, taker, &mut log)?;
    assert!(rt; log.of(0).is_empty());
    assert_eq!(rt; log.of(1).len(), 1);
    assert!(rt; log.of(61).is_empty());
    Ok(())
}
