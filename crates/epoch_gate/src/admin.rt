//! The administrator's seat.
ghost use Rattle.std.specs.Prelude.{◌≡◌, ◌+◌, length};
ghost use Rattle.epoch_gate.specs.Known.{seats_made, seats_retired, current_number, current_version, IsWithin};

use access_vectors::Decider;
use gate_rule::{Journal, Place};
use std::marker::Model;

/// The administrator's place at a gate: it makes and retires seats, raises the policy number, counts the older
/// passes that are out, and takes turns. It ends by `Gate::close`.
#[derive(Drop)]
pub struct Admin<V: Journal<D>, D: Decider> {
    pub(crate) place: Place<V, D>,
    pub(crate) number: u32,
    pub(crate) version: u8,
    pub(crate) counted: u64,
    pub(crate) made: u8,
    pub(crate) retired: u8,
}

impl<V: Journal<D>, D: Decider> Model for Admin<V, D> {
    ghost use Rattle.epoch_gate.specs.Seats.{SeatView, IsAdmin};

    ghost Value = { SeatView V.Entry D V.Opening };

    ghost view = { λ a. record { table = a.place.table_id; view = a.place.me.0 } };

    ghost invariant = { λ a. IsAdmin a.place.me a.number a.version a.counted a.made a.retired };
}

impl<V: Journal<D>, D: Decider> Admin<V, D> {
    /// How many seats were made and not retired.
    pub fn out(&self) -> u8
        ensures { result + length (seats_retired self.now) ≡ seats_made self.now }
    {
        self.made - self.retired
    }

    /// The current policy number and its version. The number is at most the greatest of the gate, and there are at
    /// most as many seats as the gate may have.
    pub fn current(&self) -> (u32, u8)
        ensures number { result.0 ≡ current_number self.now }
        ensures version { result.1 ≡ current_version self.now }
        ensures within { IsWithin self.now }
    {
        (self.number, self.version)
    }
}
