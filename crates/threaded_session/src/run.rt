//! The run.

ghost use Rattle.std.specs.Prelude.{◌≡◌, ◌+◌, ◌<◌, ◌≤◌, length, None, IfOk};
ghost use Rattle.session_text.specs.declared.session.SessionParts.{SessionParts};
ghost use Rattle.epoch_gate.specs.Opening.{refusal};
ghost use Rattle.client_script.specs.Audits.{RiseFrom};
ghost use Rattle.run_histories.specs.Histories.{AreOfRun};
ghost use Rattle.run_histories.specs.Audits.{IsLogOf};
ghost use Rattle.thread_run.specs.Runs as runs;
ghost use Rattle.threaded_session.specs.Plans.{MayRun, IsPlanOf};

use crate::plan::Plan;
use access_vectors::Decider;
use client_acts::Audit;
use flask_sid::Memory;
use run_scripts::{Scripts, split};
use run_stops::Stops;
use station_start::{Limits, Started, seat_all, start};
use std::alloc::Global;
use std::sync::Wait;
use std::thread::Threads;
use thread_run::{Prepared, Ran, Staff, run_on_threads};

/// The last policy number that may be made.
const MOST: u32 = 1_048_575;

/// The limits of stations for so many clients and lines: each client may enter once more than there are lines, which are fewer than policy numbers.
fn limits_of(clients: u8, lines: usize) -> Limits
    requires clients { clients ≤ 62 }
    requires lines { lines ≤ 100001 }
    ensures within { refusal result.seats result.quota result.most ≡ None }
    ensures seats { clients ≤ result.seats }
    ensures quota { result.quota ≡ lines + 1 }
    ensures most { (lines < result.most) × (result.most ≤ 1048575) }
{
    Limits {
        seats: clients.max(1),
        quota: lines as u32 + 1,
        most: MOST,
    }
}

/// Opens the stations, gives each client its seats, and hands each its script.
fn prepare<'d, D: Decider>(
    alloc: Global,
    decider: &'d D,
    plan: Plan,
) -> Result<Prepared<'d, D>, Memory>
    requires { MayRun (D.decides decider.now) plan }
    ensures ready { IfOk result (runs.MayRun D.decides) }
    ensures decider { IfOk result (λ prepared. prepared.staff.decider.now ≡ decider.now) }
    ensures of { IfOk result (λ prepared. (session : SessionParts) → IsPlanOf session plan → runs.IsPrepared session prepared) }
{
    let Plan {
        openings,
        clients,
        lines,
    } = plan;
    let limits = limits_of(clients, lines.len());
    let scripts = split(alloc, clients, lines)?;
    let Started {
        stations,
        mut admins,
    } = start(alloc, decider, openings, limits)?;
    let seats = seat_all(alloc, &stations, &mut admins, clients)?;
    let Scripts { clients, admin } = scripts;
    let staff = Staff {
        decider,
        most: limits.most,
        admins,
        script: admin,
    };
    Ok(Prepared {
        stations,
        staff,
        seats,
        scripts: clients,
    })
}

/// Runs a session: a worker for each client, and the administrator's beside them. The three histories are
/// those of a threaded run of the session, and the log has their audit lines.
pub fn run_plan<'d, 'g, R: Threads + Wait + Sync, D: Decider + Sync, G: Stops + Sync>(
    rt: &R,
    alloc: Global,
    decider: &'d D,
    plan: Plan,
    audit: &'g Audit<'g>,
    stops: &'g G,
) -> Result<Ran<'d, D>, Memory>
    requires { MayRun (D.decides decider.now) plan }
    ensures of_run { IfOk result (λ ran. (session : SessionParts) → IsPlanOf session plan
        → AreOfRun (D.decides decider.now) session ran.closed.files.history ran.closed.processes.history ran.closed.ports.history) }
    ensures log { IfOk result (λ ran. (session : SessionParts) → IsPlanOf session plan → RiseFrom 0 session.lines
        → IsLogOf audit.now.policy.now audit.now.contexts.now ran.closed.files.history ran.closed.processes.history ran.closed.ports.history
        audit.now.printed (length session.clients) session.lines ran.log) }
{
    let prepared = prepare(alloc, decider, plan)?;
    run_on_threads(rt, alloc, prepared, audit, stops)
}
