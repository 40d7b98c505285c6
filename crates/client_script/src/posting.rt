//! Audit lines are posted.

ghost use Rattle.std.specs.Prelude.{◌≡◌, ◌++◌, All, OnOk};

use audit_log::AuditLine;
use audit_queue::Pen;
use client_acts::Worker;
use flask_sid::Memory;
use std::sync::Wait;

/// Posts audit lines of the pen's client, in their order.
pub(crate) fn post_all<R: Wait, G>(
    worker: &Worker<'_, '_, '_, R, G>,
    pen: &mut Pen,
    lines: &[AuditLine],
) -> Result<(), Memory>
    requires queue { pen.old.queue ≡ worker.now.queue.now }
    requires client { All (λ line. line.client ≡ pen.old.number) lines.now }
    ensures ok { OnOk result (pen.new ≡ record pen.old { lines = pen.old.lines ++ lines.now }) }
    ensures queue { pen.new.queue ≡ pen.old.queue }
    ensures number { pen.new.number ≡ pen.old.number }
{
    'lines: for line in lines {
        worker.queue.post(worker.rt, pen, *line)?;
    }
    Ok(())
}
