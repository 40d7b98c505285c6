//! A change of policy at a gate over a ledger: the notice and the acknowledgement.

ghost use Rattle.std.specs.Prelude.{◌≡◌, IfOk, IfErr, OnErr};
ghost use Rattle.epoch_gate.specs.Seats.{IsOfGate};
ghost use Rattle.epoch_gate.specs.Known.{IsIdle, seats_made, seats_retired, seen_by, greatest_number, versions_at};
ghost use Rattle.access_vectors.specs.Notices.{notice_fault, IsRefusal};
ghost use Rattle.gate_ledger.specs.Changes.{phase_after, HasNotified, HasNotNotified, HasAnswered, HasNoRoom};

use crate::ledger::{Ledger, Line};
use access_vectors::{Decider, NotifyFault};
use epoch_gate::{Admin, Gate};
use flask_sid::Memory;
use std::sync::Wait;

/// What became of an acknowledgement.
#[derive(Clone, Copy, Debug, PartialEq, Eq)]
pub enum Acknowledged {
    /// This number is settled: no older pass is out.
    Done(u32),
    /// So many older passes are out.
    Busy(u64),
    /// Nothing is pending.
    Idle,
}

/// Raises the number to this version and adds its notice, under one turn. The faults are tested in their order, over
/// the lines that the turn finds. After one of them the turn is given back, and nothing was added.
pub fn notify<D: Decider, R: Wait>(
    rt: &R,
    gate: &Gate<Ledger<D>, D>,
    admin: &mut Admin<Ledger<D>, D>,
    ver: u8,
) -> Result<u32, NotifyFault>
    requires gate { IsOfGate gate.now admin.old }
    requires idle { IsIdle admin.old }
    ensures ok { IfOk result (λ number. HasNotified (versions_at D.decides gate.now) ver (greatest_number gate.now) number admin.old admin.new) }
    ensures refused { IfErr result (IsRefusal (notice_fault (phase_after (seen_by admin.new)) (versions_at D.decides gate.now) ver (greatest_number gate.now))) }
    ensures err { OnErr result (HasNotNotified admin.old admin.new) }
    ensures seats { (seats_made admin.new ≡ seats_made admin.old) × (seats_retired admin.new ≡ seats_retired admin.old) }
    ensures idle { IsIdle admin.new }
    ensures gate { IsOfGate gate.now admin.new }
{
    let _within = admin.current();
    let ledger = gate.take_admin(rt, admin);
    match ledger.with_notice(gate.decider().versions(), ver, gate.most()) {
        Ok(ledger) => {
            let number = ledger.newest;
            gate.raise(admin, ver);
            gate.give_admin(admin, ledger);
            Ok(number)
        }
        Err((ledger, fault)) => {
            gate.give_admin(admin, ledger);
            Err(fault)
        }
    }
}

/// Counts the older passes and, where none is out, adds the acknowledgement of the pending number, under one turn.
/// After `Memory` the turn is given back, and nothing was added.
pub fn acknowledge<D: Decider, R: Wait>(
    rt: &R,
    gate: &Gate<Ledger<D>, D>,
    admin: &mut Admin<Ledger<D>, D>,
) -> Result<Acknowledged, Memory>
    requires gate { IsOfGate gate.now admin.old }
    requires idle { IsIdle admin.old }
    ensures answer { IfOk result (λ answer. HasAnswered answer admin.old admin.new) }
    ensures err { OnErr result (HasNoRoom admin.old admin.new) }
    ensures seats { (seats_made admin.new ≡ seats_made admin.old) × (seats_retired admin.new ≡ seats_retired admin.old) }
    ensures idle { IsIdle admin.new }
    ensures gate { IsOfGate gate.now admin.new }
{
    let ledger = gate.take_admin(rt, admin);
    let newest = ledger.newest;
    if ledger.settled == newest {
        gate.give_admin(admin, ledger);
        return Ok(Acknowledged::Idle);
    }
    let older = gate.older(admin);
    if older > 0 {
        gate.give_admin(admin, ledger);
        return Ok(Acknowledged::Busy(older));
    }
    match ledger.with_line(Line::Settled(newest)) {
        Ok(ledger) => {
            gate.give_admin(admin, ledger);
            Ok(Acknowledged::Done(newest))
        }
        Err(ledger) => {
            gate.give_admin(admin, ledger);
            Err(Memory)
        }
    }
}
