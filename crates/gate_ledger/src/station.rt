//! A caller's call at a gate over a ledger.

ghost use Rattle.std.specs.Prelude.{◌≡◌, [], ◌∷◌, ◌++◌, OnOk, OnErr};
ghost use Rattle.epoch_gate.specs.Seats.{IsOfGate};
ghost use Rattle.epoch_gate.specs.Known.{IsIdle, HasPass, own_entries, caller_number, pass_held, pass_number, quota_left};
ghost use Rattle.gate_ledger.specs.declared.ledger.Line.TheVariants.{Op};
ghost use Rattle.gate_ledger.specs.Changes.{HasAddedNone, HasCalled, HasTurnAlone};

use crate::ledger::{Ledger, Line};
use access_vectors::Decider;
use epoch_gate::{Gate, Seat};
use flask_sid::Memory;
use std::sync::Wait;

/// Adds a line of the seat's own, with this mark and its pass's number, under one turn. After `Memory` its own
/// lines are as before, and the turn is given back.
pub fn call<D: Decider, R: Wait>(
    rt: &R,
    gate: &Gate<Ledger<D>, D>,
    seat: &mut Seat<Ledger<D>, D>,
    mark: u32,
) -> Result<(), Memory>
    requires gate { IsOfGate gate.now seat.old }
    requires idle { IsIdle seat.old }
    requires pass { HasPass seat.old }
    ensures ok { OnOk result (own_entries seat.new ≡ own_entries seat.old ++ Op (caller_number seat.old) mark (pass_number seat.old) ∷ []) }
    ensures added { OnOk result (HasCalled (Op (caller_number seat.old) mark (pass_number seat.old)) seat.old seat.new) }
    ensures err { OnErr result (own_entries seat.new ≡ own_entries seat.old) }
    ensures none { OnErr result (HasAddedNone seat.old seat.new) }
    ensures turn { HasTurnAlone seat.old seat.new }
    ensures number { caller_number seat.new ≡ caller_number seat.old }
    ensures pass { (pass_held seat.new ≡ pass_held seat.old) × (quota_left seat.new ≡ quota_left seat.old) }
    ensures idle { IsIdle seat.new }
    ensures gate { IsOfGate gate.now seat.new }
{
    let caller = seat.number();
    let Some((number, _)) = seat.pass() else {
        unreachable!()
    };
    let ledger = gate.take(rt, seat);
    match ledger.with_line(Line::Op(caller, mark, number)) {
        Ok(ledger) => {
            gate.give(seat, ledger);
            Ok(())
        }
        Err(ledger) => {
            gate.give(seat, ledger);
            Err(Memory)
        }
    }
}
