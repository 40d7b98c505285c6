//! The run.

ghost use Rattle.std.specs.Prelude.{◌≡◌, ℕ, length, All, Ok, true, is_ok, IfOk, OnOk};
ghost use Rattle.std.specs.List.{AllZip};
ghost use Rattle.session_text.specs.declared.session.SessionParts.{SessionParts};
ghost use Rattle.run_histories.specs.Histories.{AreOfRun};
ghost use Rattle.client_script.specs.Audits.{RiseFrom};
ghost use Rattle.run_histories.specs.Audits.{IsLogOf};
ghost use Rattle.thread_run.specs.Workers.{MayWork, MayPost, HasWorked, HasPosted, MayAdminister, HasAdministered};
ghost use Rattle.thread_run.specs.Managers.{MayBegin, AreAfter, AreWalked, led_first};
ghost use Rattle.thread_run.specs.Runs.{MayRun, IsPrepared};

use crate::administrator::{Holds, Office};
use crate::clients::{Hall, Slot};
use crate::leaving::{close, drained, have_all_run};
use crate::managers::{HeldOne, apart, lead};
use crate::prepared::{Prepared, Ran, Staff};
use crate::slots::slots_of;
use access_vectors::Decider;
use audit_log::AuditLog;
use audit_queue::AuditQueue;
use client_acts::Audit;
use flask_sid::Memory;
use managed::Managed;
use retained_rights::{AllBits, EachBits};
use run_histories::Closed;
use run_stops::Stops;
use station_start::{Admins, ThreeStations};
use std::alloc::Global;
use std::sync::Wait;
use std::thread::Threads;
use thread_tasks::{Crew, run_beside};

/// What is left of the workers: the places of the clients, the administrators of the stations, and how the administrator's
/// script ended.
#[derive(Drop)]
struct Worked<'d, D: Decider> {
    slots: Vec<Slot<'d, D>>,
    admins: Admins<'d, D>,
    ended: Result<(), Memory>,
}

/// The administrator's place at the three stations, before the first change.
fn open<'s, 'd, D: Decider>(
    alloc: Global,
    stations: &'s ThreeStations<'d, D>,
    staff: Staff<'d, D>,
) -> Result<Office<'d, D, HeldOne<'s, 'd, D>>, Memory>
    requires { (seats : ℕ) × MayBegin seats stations.now staff }
    ensures changes { IfOk result (λ office. office.changes ≡ led_first staff.entry.decider.now staff.entry.most stations.entry.now staff.entry.admins) }
    ensures lines { IfOk result (λ office. office.lines.items ≡ staff.entry.script.items) }
{
    let Staff {
        decider,
        most,
        admins,
        script,
    } = staff;
    let changes = lead(alloc, decider, most, stations, admins)?;
    Ok(Office {
        changes,
        lines: script,
        ended: Ok(()),
    })
}

/// Runs the clients' scripts, a worker for each, and the administrator's beside them, whatever its managers are, and joins
/// them all.
fn run_together<
    'd,
    R: Threads + Wait + Sync,
    D: Decider + Sync,
    M: Managed + Send + Drop,
    G: Stops + Sync,
>(
    rt: &R,
    alloc: Global,
    hall: &Hall<'_, 'd, '_, D, G>,
    slots: Vec<Slot<'d, D>>,
    office: Office<'d, D, M>,
) -> (Vec<Slot<'d, D>>, Office<'d, D, M>)
    requires clients { All (λ slot. MayWork D.decides hall.now.stations.now slot × MayPost hall.now.queue.now slot) slots.items }
    requires administrator { MayAdminister M.seen office }
    ensures clients { AllZip (λ was now. HasWorked hall.entry.now.stations.now was now × HasPosted hall.entry.now.audit.now was now) slots.entry.items result.0.items }
    ensures administrator { HasAdministered D.decides M.seen M.same office.entry result.1 }
{
    let holds = Holds { stops: hall.stops };
    let crew = Crew {
        task: hall,
        each: slots,
    };
    run_beside(rt, alloc, crew, &holds, office)
}

/// Runs all scripts, as `run_together` does, over the three stations. `Memory` comes before the first of them.
fn run_workers<'d, R: Threads + Wait + Sync, D: Decider + Sync, G: Stops + Sync>(
    rt: &R,
    alloc: Global,
    hall: &Hall<'_, 'd, '_, D, G>,
    slots: Vec<Slot<'d, D>>,
    staff: Staff<'d, D>,
) -> Result<Worked<'d, D>, Memory>
    requires clients { All (λ slot. MayWork D.decides hall.now.stations.now slot × MayPost hall.now.queue.now slot) slots.items }
    requires staff { (seats : ℕ) × MayBegin seats hall.now.stations.now staff }
    ensures clients { IfOk result (λ worked.
        AllZip (λ was now. HasWorked hall.entry.now.stations.now was now × HasPosted hall.entry.now.audit.now was now) slots.entry.items worked.slots.items) }
    ensures admins { IfOk result (λ worked. AreAfter hall.entry.now.stations.now staff.entry.admins worked.admins) }
    ensures walked { IfOk result (λ worked. OnOk worked.ended
        (AreWalked (D.decides staff.entry.decider.now).versions staff.entry.script.items worked.admins)) }
{
    let office = open(alloc, hall.stations, staff)?;
    let done = run_together(rt, alloc, hall, slots, office);
    let (slots, office) = done;
    let Office { changes, ended, .. } = office;
    let admins = apart(changes);
    Ok(Worked {
        slots,
        admins,
        ended,
    })
}

/// What a run leaves, where every script was run whole and no worker wanted memory. It stands in a function of its own, since the
/// histories are given back at each of its ends.
fn left_by<'d, D: Decider>(
    whole: bool,
    ended: Result<(), Memory>,
    closed: Closed<'d, D, EachBits, AllBits, AllBits>,
    log: Result<AuditLog, Memory>,
) -> Result<Ran<'d, D>, Memory>
    ensures closed { IfOk result (λ ran. ran.closed ≡ closed.entry) }
    ensures log { IfOk result (λ ran. log ≡ Ok ran.log) }
    ensures whole { IfOk result (λ ran. whole ≡ true) }
    ensures ended { IfOk result (λ ran. is_ok ended ≡ true) }
{
    ended?;
    if whole {
        Ok(Ran { closed, log: log? })
    } else {
        Err(Memory)
    }
}

/// Runs a session: a worker for each client, and the administrator's beside them. All are joined; then every
/// seat and every pen is retired, the three stations are ended and the queue of audit lines is drained, also where a worker wanted
/// memory, and only then is that answered. The three histories are those of a threaded run of the session that was prepared, and the
/// log has their audit lines.
pub fn run_on_threads<'d, 'g, R: Threads + Wait + Sync, D: Decider + Sync, G: Stops + Sync>(
    rt: &R,
    alloc: Global,
    prepared: Prepared<'d, D>,
    audit: &'g Audit<'g>,
    stops: &'g G,
) -> Result<Ran<'d, D>, Memory>
    requires { MayRun D.decides prepared }
    ensures of_run { IfOk result (λ ran. (session : SessionParts) → IsPrepared session prepared.entry
        → AreOfRun (D.decides prepared.entry.staff.decider.now) session ran.closed.files.history ran.closed.processes.history ran.closed.ports.history) }
    ensures log { IfOk result (λ ran. (session : SessionParts) → IsPrepared session prepared.entry → RiseFrom 0 session.lines
        → IsLogOf audit.entry.now.policy.now audit.entry.now.contexts.now ran.closed.files.history ran.closed.processes.history ran.closed.ports.history
        audit.entry.now.printed (length session.clients) session.lines ran.log) }
{
    let Prepared {
        stations,
        staff,
        seats,
        scripts,
    } = prepared;
    let clients = seats.len() as u8;
    let (queue, mut taker) = AuditQueue::new(alloc, clients)?;
    let slots = slots_of(alloc, &queue, &mut taker, seats, scripts)?;
    let hall = Hall {
        stations: &stations,
        queue: &queue,
        audit,
        stops,
    };
    let worked = run_workers(rt, alloc, &hall, slots, staff)?;
    let Worked {
        slots,
        admins,
        ended,
    } = worked;
    let whole = have_all_run(slots.as_slice());
    let closed = close(stations, &queue, slots, admins, &mut taker);
    let log = drained(rt, alloc, queue, taker, clients);
    left_by(whole, ended, closed, log)
}
