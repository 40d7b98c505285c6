//! The lines of a script, one after another.

ghost use Rattle.std.specs.Prelude.{◌≡◌, ℕ, IfOk, OnOk, OnErr};
ghost use Rattle.session_text.specs.declared.session.Run.TheVariants as run;
ghost use Rattle.client_script.specs.Clients.{AreOf, HaveRoom, HasDone, HasStopped, HaveSame, AreSeated, IsFormedFor, standings_of};
ghost use Rattle.client_script.specs.Audits.{audited_since};

use crate::stations::{Seats, Stations};
use access_vectors::Decider;
use audit_log::AuditLines;
use client_acts::{Worker, begin, do_call, end};
use flask_sid::{Memory, Rows};
use retained_rights::Callback;
use run_stops::Stops;
use session_forms::Manager;
use session_text::{Run, RunLine};
use std::sync::Wait;

/// Takes a pass of a manager and holds it.
fn begin_at<'d, D: Decider, F: Callback + Drop, P: Callback + Drop, Q: Callback + Drop>(
    stations: &Stations<'d, D, F, P, Q>,
    seats: &mut Seats<'d, D, F, P, Q>,
    manager: Manager,
)
    requires seated { AreSeated stations.now seats.old }
    requires room { HaveRoom 0 (standings_of seats.old) }
    ensures done { (mark client : ℕ) → HasDone mark (run.Begin client manager) (standings_of seats.old) (standings_of seats.new) }
    ensures same { HaveSame (standings_of seats.old) (standings_of seats.new) }
    ensures seated { AreSeated stations.now seats.new }
{
    match manager {
        Manager::File => begin(&stations.files, &mut seats.files),
        Manager::Process => begin(&stations.processes, &mut seats.processes),
        Manager::Port => begin(&stations.ports, &mut seats.ports),
    }
}

/// Gives the held pass of a manager back.
fn end_at<'d, D: Decider, F: Callback + Drop, P: Callback + Drop, Q: Callback + Drop>(
    stations: &Stations<'d, D, F, P, Q>,
    seats: &mut Seats<'d, D, F, P, Q>,
    manager: Manager,
)
    requires seated { AreSeated stations.now seats.old }
    ensures done { (mark client : ℕ) → HasDone mark (run.End client manager) (standings_of seats.old) (standings_of seats.new) }
    ensures same { HaveSame (standings_of seats.old) (standings_of seats.new) }
    ensures seated { AreSeated stations.now seats.new }
{
    match manager {
        Manager::File => end(&stations.files, &mut seats.files),
        Manager::Process => end(&stations.processes, &mut seats.processes),
        Manager::Port => end(&stations.ports, &mut seats.ports),
    }
}

/// Runs a line of a client, and says the audit lines of its call, where audit lines are printed. A line of the administrator asks
/// nothing here. After `Memory` there is no new entry, or just that of the call.
pub(crate) fn run_line<
    'd,
    R: Wait,
    D: Decider,
    F: Callback + Drop,
    P: Callback + Drop,
    Q: Callback + Drop,
    G: Stops,
>(
    worker: &Worker<'_, '_, '_, R, G>,
    stations: &Stations<'d, D, F, P, Q>,
    seats: &mut Seats<'d, D, F, P, Q>,
    client: u8,
    line: RunLine,
) -> Result<AuditLines, Memory>
    requires seated { AreSeated stations.now seats.old }
    requires room { HaveRoom 0 (standings_of seats.old) }
    requires client { AreOf client (standings_of seats.old) }
    requires formed { IsFormedFor D.decides stations.now client line.run }
    ensures ok { OnOk result (HasDone line.line line.run (standings_of seats.old) (standings_of seats.new)) }
    ensures told { IfOk result (λ lines. lines ≡ audited_since worker.now.audit.now (standings_of seats.old) (standings_of seats.new)) }
    ensures err { OnErr result (HasStopped line.line line.run (standings_of seats.old) (standings_of seats.new)) }
    ensures seated { AreSeated stations.now seats.new }
{
    let RunLine { line: mark, run } = line;
    worker.stops.before(worker.rt, client, mark);
    match run {
        Run::File { client: _, call } => {
            do_call(worker, &stations.files, &mut seats.files, mark, call)
        }
        Run::Process { client: _, call } => {
            do_call(
                worker,
                &stations.processes,
                &mut seats.processes,
                mark,
                call,
            )
        }
        Run::Port { client: _, call } => {
            do_call(worker, &stations.ports, &mut seats.ports, mark, call)
        }
        Run::Begin { client: _, manager } => {
            begin_at(stations, seats, manager);
            worker.stops.past(worker.rt, client, mark);
            Ok(Rows::new(worker.alloc))
        }
        Run::End { client: _, manager } => {
            end_at(stations, seats, manager);
            worker.stops.past(worker.rt, client, mark);
            Ok(Rows::new(worker.alloc))
        }
        _ => Ok(Rows::new(worker.alloc)),
    }
}
