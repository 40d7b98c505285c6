//! The queue of audit lines.

ghost use Rattle.std.specs.Prelude.{◌≡◌, ◌<◌, ◌≤◌, ◌+◌, [], replicate, length, IfOk, OnOk, OnErr};
ghost use Rattle.crossbeam_queue.specs.SegTies.{IsSegPassOf};
ghost use Rattle.audit_queue.specs.Delivery.{IsTakenAll, IsTakenFront};
ghost use Rattle.audit_queue.specs.Pens.{IsTaking, knows, with_line, with_pen, HasAll, HasFronts};

use crate::knowledge::{Gets, Keeps, LinePass, LineQueue, Makes, Posts};
use crate::pens::{Pen, Taker};
use audit_log::{AuditLine, AuditLog};
use flask_sid::Memory;
use std::alloc::Global;
use std::marker::Model;
use std::sync::Wait;

/// A queue of audit lines, which threads share. Contracts see which queue it is.
pub struct AuditQueue {
    lines: LineQueue,
}

impl Model for AuditQueue {
    ghost use Rattle.std.specs.declared.alloc.Global.{Global};
    ghost use Rattle.crossbeam_queue.specs.SegTies.{SegId};

    ghost Value = { SegId Global };

    ghost view = { λ queue. queue.lines };
}

impl Drop for AuditQueue {
    fn drop(self) {
        let AuditQueue { lines } = self;
        lines.destroy();
    }
}

impl AuditQueue {
    /// An empty queue for so many clients, of which no pen is made yet, and its taker.
    pub fn new(alloc: Global, clients: u8) -> Result<(AuditQueue, Taker), Memory>
        ensures { IfOk result (λ made. made.1 ≡ record { queue = made.0; clients = clients; made = 0; kept = [] }) }
    {
        let Ok((lines, pass)) = LineQueue::with_rule(alloc) else {
            return Err(Memory);
        };
        let taker = Taker {
            pass,
            clients,
            made: 0,
        };
        Ok((AuditQueue { lines }, taker))
    }

    /// The pen of the next client, numbered from 0 in the order of making. It takes no memory.
    pub fn pen(&self, taker: &mut Taker) -> Pen
        requires queue { taker.old.queue ≡ self.now }
        requires fewer { taker.old.made < taker.old.clients }
        ensures pen { result ≡ record { queue = self.now; number = taker.old.made; lines = [] } }
        ensures taker { taker.new ≡ record taker.old { made = taker.old.made + 1 } }
    {
        let pass = self.lines.another::<Makes>(&mut taker.pass);
        let number = taker.made;
        taker.made = number + 1;
        Pen { pass, number }
    }

    /// Posts a line of the pen's client. After `Memory` the pen has posted what it had before, and the line is not in the queue.
    pub fn post<R: Wait>(&self, rt: &R, pen: &mut Pen, line: AuditLine) -> Result<(), Memory>
        requires queue { pen.old.queue ≡ self.now }
        requires client { line.client ≡ pen.old.number }
        ensures ok { OnOk result (pen.new ≡ with_line pen.old line) }
        ensures err { OnErr result (pen.new ≡ pen.old) }
    {
        match self.lines.push_as::<Posts, R>(rt, &mut pen.pass, line) {
            Ok(()) => Ok(()),
            Err(_) => Err(Memory),
        }
    }

    /// Ends a pen: the taker keeps what it posted. It takes no memory.
    pub fn retire(&self, pen: Pen, taker: &mut Taker)
        requires pen { pen.queue ≡ self.now }
        requires taker { taker.old.queue ≡ self.now }
        ensures { taker.new ≡ with_pen taker.old pen }
    {
        let Pen { pass, number: _ } = pen;
        self.lines.absorb::<Keeps>(&mut taker.pass, pass);
    }

    /// Takes all lines into an empty log. Of each retired pen then stands there what it posted, whole, once and in its order, and of a client without a pen
    /// nothing. After `Memory` a front of it stands there. Nothing is said of a pen that was not retired.
    pub fn drain<R: Wait>(self, rt: &R, taker: Taker, log: &mut AuditLog) -> Result<(), Memory>
        requires queue { taker.queue ≡ self }
        requires empty { log.old ≡ replicate taker.clients [] }
        ensures ok { OnOk result (HasAll taker log.new) }
        ensures err { OnErr result (HasFronts taker log.new) }
    {
        let Taker {
            pass,
            clients: _,
            made: _,
        } = taker;
        take_all(rt, &self.lines, pass, log)
    }
}

/// Takes lines until the queue holds none.
fn take_all<R: Wait>(
    rt: &R,
    lines: &LineQueue,
    taker: LinePass,
    log: &mut AuditLog,
) -> Result<(), Memory>
    requires queue { IsSegPassOf lines.now taker }
    requires taking { IsTaking (knows taker).made taker }
    requires begun { (knows taker).got ≡ [] }
    requires made { (knows taker).made ≤ length log.old }
    requires empty { log.old ≡ replicate (length log.old) [] }
    ensures ok { OnOk result (IsTakenAll (knows taker) log.new) }
    ensures err { OnErr result (IsTakenFront (knows taker) log.new) }
    ensures clients { length log.new ≡ length log.old }
{
    let mut pass = taker;
    'left: for _ in rt.forever() {
        match lines.pop_as::<Gets, R>(rt, &mut pass) {
            None => return Ok(()),
            Some(line) => log.put(line)?,
        }
    }
    unreachable!()
}
