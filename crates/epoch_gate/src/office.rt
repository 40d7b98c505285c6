//! What the administrator does at a gate beside taking turns.
ghost use Rattle.std.specs.Prelude.{◌≡◌, ◌+◌, ◌<◌, ◌≤◌, ◌↔◌, Some, length, IfOk, OnOk, OnErr, IsErr};
ghost use Rattle.gate_rule.specs.Views.{leave_word};
ghost use Rattle.epoch_gate.specs.Seats.{IsOfGate};
ghost use Rattle.epoch_gate.specs.Known.{seats_allowed, greatest_number, versions_at, IsIdle, HasTurn, HasNoPass, seen_by, found_last};
ghost use Rattle.epoch_gate.specs.Known.{seats_made, seats_retired, current_number, current_version, passes_counted, older_shown, cleared_below, IsSettled, IsUnsettled};
ghost use Rattle.epoch_gate.specs.Calls.{IsNew, HasMade, HasRaised, HasCounted, HasRetired, StoodAt, StoodMade, StoodRetired};

use crate::admin::Admin;
use crate::gate::Gate;
use crate::seat::Seat;
use crate::steps;
use access_vectors::Decider;
use gate_rule::Journal;
use row_words::split_gate;

/// Why there is no seat.
#[derive(Clone, Copy, Debug, PartialEq, Eq)]
pub enum SeatFault {
    /// As many seats were made as the gate may have.
    Full,
}

impl<'d, V: Journal<D>, D: Decider> Gate<'d, V, D> {
    /// A new seat, numbered in the order of making. `Full` exactly where as many were made as the gate may have.
    pub fn seat(&self, admin: &mut Admin<V, D>) -> Result<Seat<V, D>, SeatFault>
        requires { IsOfGate self.now admin.old }
        ensures seat { IfOk result (λ seat. IsOfGate self.now seat × IsNew admin.old seat) }
        ensures ok { OnOk result (HasMade admin.old admin.new) }
        ensures rule { OnOk result (StoodMade V.means D.decides self.now admin.old admin.new) }
        ensures full { IsErr result ↔ (seats_made admin.old ≡ seats_allowed self.now) }
        ensures err { OnErr result (admin.new ≡ admin.old) }
        ensures gate { IsOfGate self.now admin.new }
    {
        if admin.made == self.seats {
            return Err(SeatFault::Full);
        }
        let number = admin.made;
        let place = steps::make(&self.table.shared, &mut admin.place);
        steps::glance(&self.table.shared, &mut admin.place);
        admin.made += 1;
        Ok(Seat {
            place,
            number,
            quota: self.quota,
            pass: None,
        })
    }

    /// Raises the policy number by one, with this version, in one step.
    pub fn raise(&self, admin: &mut Admin<V, D>, ver: u8)
        requires gate { IsOfGate self.now admin.old }
        requires turn { HasTurn admin.old }
        requires settled { IsSettled V.means.kind admin.old }
        requires most { current_number admin.old < greatest_number self.now }
        requires version { ver < versions_at D.decides self.now }
        ensures raised { HasRaised admin.old admin.new }
        ensures number { current_number admin.new ≡ current_number admin.old + 1 }
        ensures version { current_version admin.new ≡ ver }
        ensures seen { seen_by admin.new ≡ seen_by admin.old }
        ensures turn { HasTurn admin.new }
        ensures rule { StoodAt V.means D.decides self.now admin.old 0 (found_last admin.new) }
        ensures gate { IsOfGate self.now admin.new }
    {
        let found = steps::raise(&self.table.shared, &mut admin.place, admin.version, ver);
        let (_, _, passes) = split_gate(found);
        admin.number += 1;
        admin.version = ver;
        admin.counted = passes - admin.counted;
    }

    /// How many passes of the other parity than the current number's are out, by one load of their leave counter.
    /// After 0 every pass below the current number is below a forced one, then and ever after.
    pub fn older(&self, admin: &mut Admin<V, D>) -> u64
        requires gate { IsOfGate self.now admin.old }
        requires turn { HasTurn admin.old }
        requires pending { IsUnsettled V.means.kind admin.old }
        ensures counted { HasCounted admin.old admin.new }
        ensures shown { older_shown admin.new ≡ Some result }
        ensures seen { seen_by admin.new ≡ seen_by admin.old }
        ensures turn { HasTurn admin.new }
        ensures older { result + found_last admin.new ≡ passes_counted admin.old }
        ensures clear { result ≡ 0 → cleared_below admin.new ≡ current_number admin.old }
        ensures few { result + length (seats_retired admin.old) ≤ seats_made admin.old }
        ensures rule { StoodAt V.means D.decides self.now admin.old (leave_word (current_number admin.old + 1)) (found_last admin.new) }
        ensures gate { IsOfGate self.now admin.new }
    {
        let left = steps::count(&self.table.shared, &mut admin.place, admin.number);
        admin.counted - left
    }

    /// Ends a seat. Its number is never used again. The administrator may have the turn.
    pub fn retire(&self, seat: Seat<V, D>, admin: &mut Admin<V, D>)
        requires gate { IsOfGate self.now admin.old }
        requires seat { IsOfGate self.now seat }
        requires out { HasNoPass seat }
        requires idle { IsIdle seat }
        ensures retired { HasRetired admin.old seat admin.new }
        ensures rule { StoodRetired V.means D.decides self.now admin.old seat admin.new }
        ensures gate { IsOfGate self.now admin.new }
    {
        let Seat { place, .. } = seat;
        steps::retire(&self.table.shared, &mut admin.place, place);
        steps::glance(&self.table.shared, &mut admin.place);
        admin.retired += 1;
    }
}
