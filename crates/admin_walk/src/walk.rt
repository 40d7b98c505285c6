//! The administrator's lines, one after another.

ghost use Rattle.std.specs.Prelude.{◌≡◌, ◌<◌, ◌+◌, ℕ, false, length, slice_get, OnOk, OnErr};
ghost use Rattle.access_vectors.specs.Phases.{number_of, is_pending};
ghost use Rattle.change_protocol.specs.Changes.{AreBoth};
ghost use Rattle.admin_walk.specs.Walks.{is_administrators, own_lines};
ghost use Rattle.admin_walk.specs.Moves.{AreTold, IsReady, HasActed, HasStopped, HasRun, HasRunShort, IsExplained};

use crate::lines::act;
use access_vectors::Decider;
use change_protocol::Coordinator;
use flask_sid::Memory;
use managed::Managed;
use run_stops::Stops;
use session_text::{Run, RunLine, Session};
use std::alloc::Global;
use std::sync::Wait;

/// The administrator, where stops are told of a client's number.
const ADMINISTRATOR: u8 = 255;

/// Whether a line is the administrator's.
fn is_own(run: &Run) -> bool
    ensures { result ≡ is_administrators run.now }
{
    matches!(
        run,
        Run::Notify { .. } | Run::Update { .. } | Run::Ack | Run::Force
    )
}

/// Runs a line, if it is the administrator's.
fn run_line<R: Wait, D: Decider, M: Managed, G: Stops>(
    rt: &R,
    alloc: Global,
    changes: &mut Coordinator<'_, D, M>,
    line: &RunLine,
    stops: &G,
) -> Result<(), Memory>
    requires ready { IsReady M.seen changes.old }
    requires three { length changes.old.managers ≡ 3 }
    requires room { number_of changes.old.server.phase < changes.old.server.most }
    ensures ok { OnOk result (HasActed M.seen (D.decides changes.old.server.decider).versions line.now.run changes.old changes.new) }
    ensures err { OnErr result (HasStopped M.seen (D.decides changes.old.server.decider).versions line.now.run changes.old changes.new) }
    ensures same { (place : ℕ) → AreBoth M.same (slice_get changes.old.managers place) (slice_get changes.new.managers place) }
{
    let own = is_own(&line.run);
    if own {
        stops.before(rt, ADMINISTRATOR, line.line);
    }
    let answer = act(rt, alloc, changes, &line.run);
    if own {
        stops.past(rt, ADMINISTRATOR, line.line);
    }
    answer
}

/// Runs the administrator's lines among these, in order: each manager's turns grow by those that a walk of the lines gives it.
/// After `Memory`, which comes at a notice alone, they grew by those of the lines above it, and by at most one turn of that
/// notice. Each manager stays the same one.
pub fn run_admin_lines<R: Wait, D: Decider, M: Managed, G: Stops>(
    rt: &R,
    alloc: Global,
    changes: &mut Coordinator<'_, D, M>,
    lines: &[RunLine],
    stops: &G,
) -> Result<(), Memory>
    requires settled { is_pending changes.old.server.phase ≡ false }
    requires told { AreTold M.seen changes.old.managers }
    requires three { length changes.old.managers ≡ 3 }
    requires room { number_of changes.old.server.phase + own_lines lines.now < changes.old.server.most }
    ensures ok { OnOk result (HasRun M.seen (D.decides changes.old.server.decider).versions lines.now changes.old changes.new) }
    ensures explained { OnOk result (IsExplained M.seen (D.decides changes.old.server.decider).versions lines.now changes.old changes.new) }
    ensures err { OnErr result (HasRunShort M.seen (D.decides changes.old.server.decider).versions lines.now changes.old changes.new) }
    ensures same { (place : ℕ) → AreBoth M.same (slice_get changes.old.managers place) (slice_get changes.new.managers place) }
{
    'lines: for line in lines {
        run_line(rt, alloc, changes, line, stops)?;
    }
    Ok(())
}

/// The work of the administrator's worker: it runs the administrator's lines of a session, as `run_admin_lines` does.
pub fn run_admin<R: Wait, D: Decider, M: Managed, G: Stops>(
    rt: &R,
    alloc: Global,
    changes: &mut Coordinator<'_, D, M>,
    session: &Session,
    stops: &G,
) -> Result<(), Memory>
    requires settled { is_pending changes.old.server.phase ≡ false }
    requires told { AreTold M.seen changes.old.managers }
    requires three { length changes.old.managers ≡ 3 }
    requires room { number_of changes.old.server.phase + own_lines session.now.lines < changes.old.server.most }
    ensures ok { OnOk result (HasRun M.seen (D.decides changes.old.server.decider).versions session.now.lines changes.old changes.new) }
    ensures explained { OnOk result (IsExplained M.seen (D.decides changes.old.server.decider).versions session.now.lines changes.old changes.new) }
    ensures err { OnErr result (HasRunShort M.seen (D.decides changes.old.server.decider).versions session.now.lines changes.old changes.new) }
    ensures same { (place : ℕ) → AreBoth M.same (slice_get changes.old.managers place) (slice_get changes.new.managers place) }
{
    run_admin_lines(rt, alloc, changes, session.parts().lines.as_slice(), stops)
}
