//! The places of the clients.

ghost use Rattle.std.specs.Prelude.{◌≡◌, [], length, IfOk};
ghost use Rattle.thread_run.specs.Runs;

use crate::clients::Slot;
use access_vectors::Decider;
use audit_queue::{AuditQueue, Taker};
use flask_sid::Memory;
use session_text::RunLine;
use station_start::ClientSeats;
use std::alloc::Global;

/// A place for each client: its seats with its script, and a pen of the queue. The pen's number is the client's.
pub(crate) fn slots_of<'d, D: Decider>(
    alloc: Global,
    queue: &AuditQueue,
    taker: &mut Taker,
    seats: Vec<ClientSeats<'d, D>>,
    scripts: Vec<Vec<RunLine>>,
) -> Result<Vec<Slot<'d, D>>, Memory>
    requires { taker.old ≡ record { queue = queue.now; clients = length seats.items; made = 0; kept = [] } }
    ensures slots { IfOk result (λ slots. slots.items ≡ Runs.slots_of queue.now 0 seats.entry.items scripts.items) }
    ensures taker { taker.new ≡ record taker.old { made = taker.new.made } }
{
    let mut slots = Vec::new(alloc);
    let mut scripts = scripts.into_iter();
    'places: for own in seats {
        let Some(lines) = scripts.next() else {
            return Ok(slots);
        };
        slots.push(Slot {
            seats: own,
            pen: queue.pen(taker),
            lines,
            ended: Ok(()),
        })?;
    }
    Ok(slots)
}
