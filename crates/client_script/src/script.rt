//! A client's whole script.

ghost use Rattle.std.specs.Prelude.{◌≡◌, [], length, All, None, OnOk, OnErr};
ghost use Rattle.client_script.specs.Clients.{AreOf, HaveRoom, HasRun, HasRunFront, HoldNone, HaveNone, AreSeated, IsFormedFor, standings_of};
ghost use Rattle.client_script.specs.Audits.{RiseFrom, script_audit};

use crate::lines::run_line;
use crate::posting::post_all;
use crate::stations::{Seats, Stations};
use access_vectors::Decider;
use audit_queue::Pen;
use client_acts::{Worker, end};
use flask_sid::Memory;
use retained_rights::Callback;
use run_stops::Stops;
use session_text::RunLine;
use std::sync::Wait;

/// Runs a client's lines at the three stations. Each of its calls then stands once among its own entries of that manager, in the
/// order of the lines, with the line's number as mark. After `Memory` that holds of a front of the lines. No pass is held then.
///
/// Where audit lines are printed the client's pen posts those of each call behind it, so that it has posted those of the whole script,
/// in the order of the lines.
pub fn run_script<
    'd,
    R: Wait,
    D: Decider,
    F: Callback + Drop,
    P: Callback + Drop,
    Q: Callback + Drop,
    G: Stops,
>(
    worker: &Worker<'_, '_, '_, R, G>,
    stations: &Stations<'d, D, F, P, Q>,
    seats: &mut Seats<'d, D, F, P, Q>,
    pen: &mut Pen,
    lines: Vec<RunLine>,
) -> Result<(), Memory>
    requires seated { AreSeated stations.now seats.old }
    requires fresh { HaveNone (standings_of seats.old) }
    requires client { AreOf (standings_of seats.old).files.client (standings_of seats.old) }
    requires room { HaveRoom (length lines.items) (standings_of seats.old) }
    requires formed { All (λ line. IsFormedFor D.decides stations.now (standings_of seats.old).files.client line.run) lines.items }
    requires queue { pen.old.queue ≡ worker.now.queue.now }
    requires number { pen.old.number ≡ (standings_of seats.old).files.client }
    requires unused { pen.old.lines ≡ [] }
    ensures ok { OnOk result (HasRun (standings_of seats.old).files.client lines.items (standings_of seats.new)) }
    ensures posted { OnOk result (RiseFrom 0 lines.items
        → pen.new.lines ≡ script_audit worker.now.audit.now (standings_of seats.old).files.client lines.items (standings_of seats.new)) }
    ensures err { OnErr result (HasRunFront (standings_of seats.old).files.client lines.items (standings_of seats.new)) }
    ensures client { AreOf (standings_of seats.old).files.client (standings_of seats.new) }
    ensures given { HoldNone (standings_of seats.new) }
    ensures seated { AreSeated stations.now seats.new }
    ensures queue { pen.new.queue ≡ pen.old.queue }
    ensures number { pen.new.number ≡ pen.old.number }
{
    let ran = run_lines(worker, stations, seats, pen, lines);
    end(&stations.files, &mut seats.files);
    end(&stations.processes, &mut seats.processes);
    end(&stations.ports, &mut seats.ports);
    ran
}

/// Runs the lines one after another, and posts the audit lines of each.
fn run_lines<
    'd,
    R: Wait,
    D: Decider,
    F: Callback + Drop,
    P: Callback + Drop,
    Q: Callback + Drop,
    G: Stops,
>(
    worker: &Worker<'_, '_, '_, R, G>,
    stations: &Stations<'d, D, F, P, Q>,
    seats: &mut Seats<'d, D, F, P, Q>,
    pen: &mut Pen,
    lines: Vec<RunLine>,
) -> Result<(), Memory>
    requires seated { AreSeated stations.now seats.old }
    requires fresh { HaveNone (standings_of seats.old) }
    requires client { AreOf pen.old.number (standings_of seats.old) }
    requires room { HaveRoom (length lines.items) (standings_of seats.old) }
    requires formed { All (λ line. IsFormedFor D.decides stations.now pen.old.number line.run) lines.items }
    requires queue { pen.old.queue ≡ worker.now.queue.now }
    requires unused { pen.old.lines ≡ [] }
    ensures ok { OnOk result (HasRun pen.old.number lines.items (standings_of seats.new)) }
    ensures posted { OnOk result (RiseFrom 0 lines.items
        → pen.new.lines ≡ script_audit worker.now.audit.now pen.old.number lines.items (standings_of seats.new)) }
    ensures err { OnErr result (HasRunFront pen.old.number lines.items (standings_of seats.new)) }
    ensures client { AreOf pen.old.number (standings_of seats.new) }
    ensures seated { AreSeated stations.now seats.new }
    ensures queue { pen.new.queue ≡ pen.old.queue }
    ensures number { pen.new.number ≡ pen.old.number }
{
    'lines: for line in lines {
        let asked = run_line(worker, stations, seats, pen.number(), line)?;
        post_all(worker, pen, asked.as_slice())?;
    }
    Ok(())
}
