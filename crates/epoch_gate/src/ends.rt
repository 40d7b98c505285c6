//! How a gate is made, and how it ends.
ghost use Rattle.std.specs.Prelude.{◌≡◌, [], length, IfOk};
ghost use Rattle.epoch_gate.specs.Seats.{IsOfGate};
ghost use Rattle.epoch_gate.specs.Known.{IsIdle, seats_made, seats_retired};
ghost use Rattle.epoch_gate.specs.Calls.{IsFirst, HasClosed, HasEnded};
ghost use Rattle.epoch_gate.specs.Opening.{refusal, IsRefused};
ghost use Rattle.epoch_gate.specs.Opening;

use crate::admin::Admin;
use crate::fault::GateFault;
use crate::gate::Gate;
use access_vectors::Decider;
use atomic_table::Table;
use gate_rule::{Journal, Terms};
use std::alloc::Global;
use std::snapshot::Snapshot;

/// How many words a gate has.
const WORDS: usize = 517;

fn is_outside(n: u32, most: u32) -> bool
    ensures { result ≡ Opening.is_outside n most }
{
    n == 0 || n > most
}

impl<'d, V: Journal<D>, D: Decider> Gate<'d, V, D> {
    /// A gate over a value, with its administrator. After a refusal the value is given up.
    pub fn new(
        alloc: Global,
        value: V,
        decider: &'d D,
        seats: u8,
        quota: u32,
        most: u32,
    ) -> Result<(Gate<'d, V, D>, Admin<V, D>), GateFault>
        requires fresh { V.means.history value ≡ [] }
        requires decider { V.means.decider value ≡ decider.now }
        requires promise { V.means.promise (V.means.opening value) decider.now [] × V.means.keeps value }
        ensures refused { IsRefused result (refusal seats quota most) }
        ensures fixed { IfOk result (λ made. made.0.fixed ≡ record { decider = decider.now; opening = V.means.opening value; seats = seats; quota = quota; most = most }) }
        ensures admin { IfOk result (λ made. IsOfGate made.0 made.1 × IsFirst made.0 made.1) }
    {
        if is_outside(u32::from(seats), 64) {
            return Err(GateFault::Seats(seats));
        }
        if is_outside(quota, 536_870_912) {
            return Err(GateFault::Quota(quota));
        }
        if is_outside(most, 1_048_575) {
            return Err(GateFault::Most(most));
        }
        let terms = Terms {
            decider: Snapshot::of(decider),
            first: Snapshot::of(&value),
            seats: u64::from(seats),
            quota: u64::from(quota),
            most: u64::from(most),
        };
        let Ok(words) = Vec::from_elem(alloc, 0u64, WORDS) else {
            return Err(GateFault::Memory);
        };
        let mut slots = Vec::new(alloc);
        let Ok(()) = slots.push(Some(value)) else {
            return Err(GateFault::Memory);
        };
        let Ok((table, place)) = Table::new(alloc, words.as_slice(), slots, &terms) else {
            return Err(GateFault::Memory);
        };
        let gate = Gate {
            table,
            decider,
            seats,
            quota,
            most,
        };
        let admin = Admin {
            place,
            number: 0,
            version: 0,
            counted: 0,
            made: 0,
            retired: 0,
        };
        Ok((gate, admin))
    }

    /// Ends the gate once every seat is retired, and gives the value.
    pub fn close(self, admin: Admin<V, D>) -> V
        requires gate { IsOfGate self admin }
        requires out { seats_made admin ≡ length (seats_retired admin) }
        requires idle { IsIdle admin }
        ensures closed { HasClosed V.means admin result }
        ensures rule { HasEnded V.means D.decides self.entry admin }
    {
        let Gate { table, .. } = self;
        let Admin { place, .. } = admin;
        let mut closed = table.close_with(place);
        let slot = closed.take(0);
        closed.free();
        let Some(value) = slot else { unreachable!() };
        value
    }
}
