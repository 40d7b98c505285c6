//! The clients leave, the stations are ended, and the queue of audit lines is drained.

ghost use Rattle.std.specs.Prelude.{◌≡◌, ℕ, List, All, length, is_ok, IfOk};
ghost use Rattle.std.specs.List.{list_all};
ghost use Rattle.session_text.specs.declared.session.SessionParts.{SessionParts};
ghost use Rattle.epoch_gate.specs.Known.{decider_of};
ghost use Rattle.run_histories.specs.Histories.{AreOfRun};
ghost use Rattle.audit_queue.specs.Pens.{HasAll};
ghost use Rattle.thread_run.specs.Runs.{MayAllLeave, HaveAllLeft, HaveCalls, AreManned, WasRun, with_pens};

use crate::clients::Slot;
use access_vectors::Decider;
use audit_log::AuditLog;
use audit_queue::{AuditQueue, Taker};
use flask_sid::Memory;
use retained_rights::{AllBits, EachBits};
use run_histories::{Closed, end_run, retire_client};
use station_start::{Admins, ThreeStations};
use std::alloc::Global;
use std::sync::Wait;

/// Whether every client's script was run whole.
pub(crate) fn have_all_run<'d, D: Decider>(slots: &[Slot<'d, D>]) -> bool
    ensures { result ≡ list_all (λ slot. is_ok slot.ended) slots.now }
{
    slots.iter().all(|slot| slot.ended.is_ok())
}

/// Retires every client's seats and its pen, in order.
fn retire_all<'d, D: Decider>(
    stations: &ThreeStations<'d, D>,
    queue: &AuditQueue,
    slots: Vec<Slot<'d, D>>,
    admins: Admins<'d, D>,
    taker: &mut Taker,
) -> Admins<'d, D>
    requires clients { MayAllLeave stations.now slots.items }
    requires pens { All (λ slot. slot.pen.queue ≡ queue.now) slots.items }
    requires admins { (seats : ℕ) × AreManned seats stations.now admins }
    requires taker { taker.old.queue ≡ queue.now }
    ensures left { HaveAllLeft stations.entry.now slots.entry.items admins.entry result }
    ensures taker { taker.new ≡ with_pens taker.old slots.entry.items }
{
    let Admins {
        mut files,
        mut processes,
        mut ports,
    } = admins;
    'slots: for slot in slots {
        let Slot { seats, pen, .. } = slot;
        retire_client(stations, seats, &mut files, &mut processes, &mut ports);
        queue.retire(pen, taker);
    }
    Admins {
        files,
        processes,
        ports,
    }
}

/// Retires every client's seats and its pen, and ends the three stations. Where a session was run there, the three histories are
/// those of a threaded run of it. Each client's calls there are its own entries, and the taker keeps what each pen posted.
pub(crate) fn close<'d, D: Decider>(
    stations: ThreeStations<'d, D>,
    queue: &AuditQueue,
    slots: Vec<Slot<'d, D>>,
    admins: Admins<'d, D>,
    taker: &mut Taker,
) -> Closed<'d, D, EachBits, AllBits, AllBits>
    requires clients { MayAllLeave stations slots.items }
    requires pens { All (λ slot. slot.pen.queue ≡ queue.now) slots.items }
    requires admins { AreManned (length slots.items) stations admins }
    requires taker { taker.old.queue ≡ queue.now }
    ensures of_run { (session : SessionParts) (chosen : List (ℕ × ℕ)) → WasRun D.decides session chosen stations.entry slots.entry.items admins.entry
        → AreOfRun (D.decides (decider_of stations.entry.files)) session result.files.history result.processes.history result.ports.history }
    ensures calls { HaveCalls slots.entry.items result.files.history result.processes.history result.ports.history }
    ensures taker { taker.new ≡ with_pens taker.old slots.entry.items }
{
    let Admins {
        files,
        processes,
        ports,
    } = retire_all(&stations, queue, slots, admins, taker);
    end_run(stations, files, processes, ports)
}

/// What the retired pens of so many clients posted, client by client.
pub(crate) fn drained<R: Wait>(
    rt: &R,
    alloc: Global,
    queue: AuditQueue,
    taker: Taker,
    clients: u8,
) -> Result<AuditLog, Memory>
    requires queue { taker.queue ≡ queue }
    requires clients { taker.clients ≡ clients }
    ensures { IfOk result (HasAll taker) }
{
    let mut log = AuditLog::new(alloc, clients)?;
    queue.drain(rt, taker, &mut log)?;
    Ok(log)
}
