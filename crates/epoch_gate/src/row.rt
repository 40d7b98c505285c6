//! Cache rows: each look and each fill is one step, and none waits.
ghost use Rattle.std.specs.Prelude.{◌≡◌, ◌<◌, IfSome};
ghost use Rattle.gate_rule.specs.Rows.{key_word};
ghost use Rattle.epoch_gate.specs.Seats.{IsOfGate, key_of};
ghost use Rattle.epoch_gate.specs.Known.{HasPass, pass_number, found_last, vector_for};
ghost use Rattle.epoch_gate.specs.Calls.{shown_vector, HasLooked, HasMissedRow, HasFilled, StoodAt};

use crate::gate::Gate;
use crate::seat::Seat;
use crate::steps;
use access_vectors::{Class, Decider, Vector};
use flask_sid::Sid;
use gate_rule::Journal;
use row_words::row_word;
use std::marker::Brand;

// The vector that a word shows of a key under a number.
fn shown(number: u32, s: Sid, t: Sid, c: Class, found: u64) -> Option<Vector>
    requires { number < 1048576 }
    ensures { result ≡ shown_vector number (key_of s t c) found }
{
    let vector = Vector::of((found % 65_536) as u16);
    if found == row_word(number, s, t, c, vector) {
        Some(vector)
    } else {
        None
    }
}

impl<'d, V: Journal<D>, D: Decider> Gate<'d, V, D> {
    /// The cached vector of a key, or `None` exactly where the key's word is no row of this key and of the pass's
    /// number. One load.
    pub fn look(&self, seat: &mut Seat<V, D>, s: Sid, t: Sid, c: Class) -> Option<Vector>
        requires gate { IsOfGate self.now seat.old }
        requires pass { HasPass seat.old }
        ensures looked { HasLooked (key_of s t c) seat.old seat.new }
        ensures shown { result ≡ shown_vector (pass_number seat.old) (key_of s t c) (found_last seat.new) }
        ensures vector { IfSome result (λ vector. vector ≡ vector_for D.decides self.now seat.old (key_of s t c)) }
        ensures rule { StoodAt V.means D.decides self.now seat.old (key_word (key_of s t c)) (found_last seat.new) }
        ensures gate { IsOfGate self.now seat.new }
    {
        let Some((number, _)) = seat.pass else {
            unreachable!()
        };
        let found = steps::look_row::<V, D, Brand>(&self.table.shared, &mut seat.place, s, t, c);
        shown(number, s, t, c, found)
    }

    /// Puts the decider's vector of a key into the key's row, under the pass's number. One swap.
    pub fn fill(&self, seat: &mut Seat<V, D>, s: Sid, t: Sid, c: Class, v: Vector)
        requires gate { IsOfGate self.now seat.old }
        requires pass { HasPass seat.old }
        requires missed { HasMissedRow (key_of s t c) seat.old }
        requires vector { v ≡ vector_for D.decides self.now seat.old (key_of s t c) }
        ensures filled { HasFilled (key_of s t c) v seat.old seat.new }
        ensures rule { StoodAt V.means D.decides self.now seat.old (key_word (key_of s t c)) (found_last seat.new) }
        ensures gate { IsOfGate self.now seat.new }
    {
        let Some((number, _)) = seat.pass else {
            unreachable!()
        };
        let words = &self.table.shared;
        let row = row_word(number, s, t, c, v);
        steps::fill_row::<V, D, Brand>(words, &mut seat.place, s, t, c, row);
    }
}
