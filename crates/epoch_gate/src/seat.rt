//! A caller's seat.
ghost use Rattle.std.specs.Prelude.{◌≡◌};
ghost use Rattle.epoch_gate.specs.Seats.{pass_of};
ghost use Rattle.epoch_gate.specs.Known.{IsCallerOf, pass_held, HasPassWithin};

use access_vectors::Decider;
use gate_rule::{Journal, Place};
use std::marker::Model;

/// A caller's place at a gate, under a number of its own: it may enter and leave, look at cache rows, and take
/// turns. It ends by `Gate::retire`; one that is dropped instead keeps the gate from being closed.
#[derive(Drop)]
pub struct Seat<V: Journal<D>, D: Decider> {
    pub(crate) place: Place<V, D>,
    pub(crate) number: u8,
    pub(crate) quota: u32,
    pub(crate) pass: Option<(u32, u8)>,
}

impl<V: Journal<D>, D: Decider> Model for Seat<V, D> {
    ghost use Rattle.epoch_gate.specs.Seats.{SeatView, IsSeat};

    ghost Value = { SeatView V.Entry D V.Opening };

    ghost view = { λ s. record { table = s.place.table_id; view = s.place.me.0 } };

    ghost invariant = { λ s. IsSeat D.decides s.place.me s.number s.quota s.pass };
}

impl<V: Journal<D>, D: Decider> Seat<V, D> {
    /// The seat's number, from 0 in the order of making.
    pub fn number(&self) -> u8
        ensures { IsCallerOf result self.now }
    {
        self.number
    }

    /// Number and version of the seat's pass, or `None` exactly where it has none.
    pub fn pass(&self) -> Option<(u32, u8)>
        ensures pass { pass_held self.now ≡ pass_of result }
        ensures within { HasPassWithin D.decides self.now }
    {
        self.pass
    }
}
