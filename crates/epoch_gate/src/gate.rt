//! The gate, and what callers do at it.
ghost use Rattle.std.specs.Prelude.{◌≡◌, ◌↔◌, Some, OnOk, OnErr, IsErr};
ghost use Rattle.epoch_gate.specs.Seats.{IsOfGate};
ghost use Rattle.gate_rule.specs.Views.{leave_word};
ghost use Rattle.epoch_gate.specs.Known.{decider_of, greatest_number, HasPass, HasNoPass, pass_number, quota_left, found_last};
ghost use Rattle.epoch_gate.specs.Calls.{HasEntered, HasLeft, StoodAt};

use crate::seat::Seat;
use crate::steps;
use access_vectors::Decider;
use atomic_table::Table;
use gate_rule::{Journal, Lawful, Terms, View};
use row_words::split_gate;
use std::alloc::Global;
use std::marker::Model;

/// The words and the slot of a manager that many threads use, and its decider.
#[derive(Drop)]
pub struct Gate<'d, V: Journal<D>, D: Decider> {
    pub(crate) table: Table<Option<V>, View<V::Entry, D, V::Opening>, Terms<V, D>, Lawful, Global>,
    pub(crate) decider: &'d D,
    pub(crate) seats: u8,
    pub(crate) quota: u32,
    pub(crate) most: u32,
}

impl<'d, V: Journal<D>, D: Decider> Model for Gate<'d, V, D> {
    ghost use Rattle.std.specs.Prelude.{◌≡◌, ◌<◌, ◌≤◌};
    ghost use Rattle.gate_rule.specs.Rule.{fixed_of};
    ghost use Rattle.epoch_gate.specs.Seats.{Site};

    ghost Value = { Site D V.Opening };

    ghost view = { λ g. record { table = g.table.shared.table_id; fixed = fixed_of V.means g.table.shared.key } };

    ghost invariant = { λ g. (g.table.shared.table_id.words ≡ 517) × (g.table.shared.table_id.slots ≡ 1) × (g.table.shared.key.decider.value ≡ g.decider.now) × (g.table.shared.key.seats ≡ g.seats) × (g.table.shared.key.quota ≡ g.quota) × (g.table.shared.key.most ≡ g.most) × (g.most < 1048576) };
}

/// The seat has entered as often as it may.
#[derive(Clone, Copy, Debug, PartialEq, Eq)]
pub struct Spent;

impl<'d, V: Journal<D>, D: Decider> Gate<'d, V, D> {
    /// What decides, as the gate was given it.
    pub fn decider(&self) -> &D
        ensures { result.now ≡ decider_of self.now }
    {
        self.decider
    }

    /// The greatest policy number that the gate may have.
    pub fn most(&self) -> u32
        ensures { result ≡ greatest_number self.now }
    {
        self.most
    }

    /// Gives the seat a pass, with the number and version that one step finds in the gate word. `Spent` exactly
    /// where no entering is left.
    pub fn enter(&self, seat: &mut Seat<V, D>) -> Result<(), Spent>
        requires gate { IsOfGate self.now seat.old }
        requires out { HasNoPass seat.old }
        ensures ok { OnOk result (HasEntered V.means.kind seat.old seat.new) }
        ensures pass { OnOk result (HasPass seat.new) }
        ensures rule { OnOk result (StoodAt V.means D.decides self.now seat.old 0 (found_last seat.new)) }
        ensures spent { IsErr result ↔ (quota_left seat.old ≡ 0) }
        ensures err { OnErr result (seat.new ≡ seat.old) }
        ensures gate { IsOfGate self.now seat.new }
    {
        if seat.quota == 0 {
            return Err(Spent);
        }
        let found = steps::enter(&self.table.shared, &mut seat.place);
        let (number, version, _) = split_gate(found);
        seat.quota -= 1;
        seat.pass = Some((number, version));
        Ok(())
    }

    /// Takes the seat's pass back, with one step on the counter of its number's parity.
    pub fn leave(&self, seat: &mut Seat<V, D>)
        requires gate { IsOfGate self.now seat.old }
        requires pass { HasPass seat.old }
        ensures left { HasLeft seat.old seat.new }
        ensures rule { StoodAt V.means D.decides self.now seat.old (leave_word (pass_number seat.old)) (found_last seat.new) }
        ensures gate { IsOfGate self.now seat.new }
    {
        let Some((number, _)) = seat.pass else {
            unreachable!()
        };
        steps::leave(&self.table.shared, &mut seat.place, number);
        seat.pass = None;
    }
}
