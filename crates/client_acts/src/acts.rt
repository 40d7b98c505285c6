//! What a client does at one station.

ghost use Rattle.std.specs.Prelude.{◌≡◌, ◌<◌, ◌⊎◌, IfOk, OnOk, OnErr};
ghost use Rattle.epoch_gate.specs.Seats.{IsOfGate};
ghost use Rattle.epoch_gate.specs.Known.{decider_of, caller_number, own_entries, quota_left, seen_by, HasPass, IsIdle};
ghost use Rattle.managed_run.specs.Calls.{HasAddedNone, IsSound, KeepsPass};
ghost use Rattle.client_acts.specs.Standings.{standing_of};
ghost use Rattle.client_acts.specs.Moves.{HasCalled, HasCalledNone, HasTaken, HasGiven};
ghost use Rattle.client_acts.specs.Audits.{IsAnswered, audited_since};

use crate::worker::Worker;
use access_vectors::Decider;
use audit_log::{Acting, AuditLines, lines_asked};
use epoch_gate::Seat;
use flask_sid::{Memory, Rows};
use managed_run::{CoreDocket, Station};
use manager_history::Core;
use run_stops::Stops;
use std::sync::Wait;

/// Does a call with its mark, under the pass that the seat holds or else under one that is taken for this call and given back
/// after it. It says the audit lines of the call, where audit lines are printed. After `Memory` there is no new entry, or just
/// that of the call.
pub fn do_call<'d, C: Core + Drop, D: Decider, R: Wait, G: Stops>(
    worker: &Worker<'_, '_, '_, R, G>,
    station: &Station<'d, C, D>,
    seat: &mut Seat<CoreDocket<'d, C, D>, D>,
    mark: u32,
    call: C::Call,
) -> Result<AuditLines, Memory>
    requires gate { IsOfGate station.now seat.old }
    requires idle { IsIdle seat.old }
    requires room { 0 < quota_left seat.old }
    requires formed { C.formed (D.decides (decider_of station.now)) (C.opening station.now.fixed.opening.core) (caller_number seat.old) call }
    ensures ok { OnOk result (HasCalled mark call (standing_of seat.old) (standing_of seat.new)) }
    ensures told { IfOk result (λ lines. lines ≡ audited_since worker.now.audit.now (own_entries seat.old) (own_entries seat.new)) }
    ensures err { OnErr result (HasCalledNone (standing_of seat.old) (standing_of seat.new) ⊎ HasCalled mark call (standing_of seat.old) (standing_of seat.new)) }
    ensures idle { IsIdle seat.new }
    ensures gate { IsOfGate station.now seat.new }
{
    let lines = call_once(worker, station, seat, mark, call)?;
    worker.stops.after(worker.rt, seat.number(), mark, seat);
    Ok(lines)
}

/// Does a call as `do_call`, and holds no test.
fn call_once<'d, C: Core + Drop, D: Decider, R: Wait, G>(
    worker: &Worker<'_, '_, '_, R, G>,
    station: &Station<'d, C, D>,
    seat: &mut Seat<CoreDocket<'d, C, D>, D>,
    mark: u32,
    call: C::Call,
) -> Result<AuditLines, Memory>
    requires gate { IsOfGate station.now seat.old }
    requires idle { IsIdle seat.old }
    requires room { 0 < quota_left seat.old }
    requires formed { C.formed (D.decides (decider_of station.now)) (C.opening station.now.fixed.opening.core) (caller_number seat.old) call }
    ensures ok { OnOk result (HasCalled mark call (standing_of seat.old) (standing_of seat.new)) }
    ensures told { IfOk result (λ lines. lines ≡ audited_since worker.now.audit.now (own_entries seat.old) (own_entries seat.new)) }
    ensures err { OnErr result (HasCalledNone (standing_of seat.old) (standing_of seat.new) ⊎ HasCalled mark call (standing_of seat.old) (standing_of seat.new)) }
    ensures idle { IsIdle seat.new }
    ensures gate { IsOfGate station.now seat.new }
{
    let holds = seat.pass().is_some();
    begin(station, seat);
    let answer = call_told(worker, station, seat, mark, call);
    if !holds {
        end(station, seat);
    }
    answer
}

/// Does a call under the pass that is held, and says its audit lines, where audit lines are printed. Its questions are copied for
/// that alone.
fn call_told<'d, C: Core + Drop, D: Decider, R: Wait, G>(
    worker: &Worker<'_, '_, '_, R, G>,
    station: &Station<'d, C, D>,
    seat: &mut Seat<CoreDocket<'d, C, D>, D>,
    mark: u32,
    call: C::Call,
) -> Result<AuditLines, Memory>
    requires gate { IsOfGate station.now seat.old }
    requires idle { IsIdle seat.old }
    requires pass { HasPass seat.old }
    requires formed { C.formed (D.decides (decider_of station.now)) (C.opening station.now.fixed.opening.core) (caller_number seat.old) call }
    ensures ok { OnOk result (IsAnswered C.use_of mark call seat.old seat.new) }
    ensures told { IfOk result (λ lines. lines ≡ audited_since worker.now.audit.now (own_entries seat.old) (own_entries seat.new)) }
    ensures err { OnErr result (HasAddedNone seat.old seat.new ⊎ IsAnswered C.use_of mark call seat.old seat.new) }
    ensures sound { IsSound C.plain C.formed C.denial_of (D.decides (decider_of station.now)) (C.opening station.now.fixed.opening.core) (seen_by seat.new) }
    ensures kept { KeepsPass seat.old seat.new }
    ensures idle { IsIdle seat.new }
    ensures gate { IsOfGate station.now seat.new }
{
    let Worker {
        rt,
        alloc,
        audit,
        ..
    } = worker;
    if !audit.printed {
        let _ = station.call(*rt, *alloc, seat, mark, call)?;
        return Ok(Rows::new(*alloc));
    }
    let client = seat.number();
    let Some((number, _)) = seat.pass() else {
        unreachable!()
    };
    let (_, asked) = station.call_asked(*rt, *alloc, seat, mark, call)?;
    let acting = Acting {
        client,
        mark,
        number,
    };
    lines_asked(
        *alloc,
        audit.policy,
        audit.contexts,
        acting,
        asked.as_slice(),
    )
}

/// Takes a pass and holds it. One that is held is kept.
pub fn begin<'d, C: Core + Drop, D: Decider>(
    station: &Station<'d, C, D>,
    seat: &mut Seat<CoreDocket<'d, C, D>, D>,
)
    requires gate { IsOfGate station.now seat.old }
    requires idle { IsIdle seat.old }
    requires room { 0 < quota_left seat.old }
    ensures taken { HasTaken (standing_of seat.old) (standing_of seat.new) }
    ensures pass { HasPass seat.new }
    ensures idle { IsIdle seat.new }
    ensures gate { IsOfGate station.now seat.new }
{
    if seat.pass().is_none() {
        let Ok(()) = station.enter(seat) else {
            unreachable!()
        };
    }
}

/// Gives the held pass back, if there is one.
pub fn end<'d, C: Core + Drop, D: Decider>(
    station: &Station<'d, C, D>,
    seat: &mut Seat<CoreDocket<'d, C, D>, D>,
)
    requires gate { IsOfGate station.now seat.old }
    requires idle { IsIdle seat.old }
    ensures given { HasGiven (standing_of seat.old) (standing_of seat.new) }
    ensures idle { IsIdle seat.new }
    ensures gate { IsOfGate station.now seat.new }
{
    if seat.pass().is_some() {
        station.leave(seat);
    }
}
