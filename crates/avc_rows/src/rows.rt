//! A check: a look at a key's row, and on a miss the decider and a fill.

ghost use Rattle.std.specs.Prelude.{◌≡◌, ◌∷◌, [], ◌++◌, IsTrue};
ghost use Rattle.epoch_gate.specs.Seats.{IsOfGate, key_of};
ghost use Rattle.epoch_gate.specs.Known.{decider_of, HasPass, keys_served, vector_for};
ghost use Rattle.avc_rows.specs.Checks.{IsSame, IsShown};

use access_vectors::{Class, Decider, Vector};
use epoch_gate::{Gate, Seat};
use flask_sid::Sid;
use gate_rule::Journal;

/// Where an answer comes from.
#[derive(Clone, Copy, Debug, PartialEq, Eq)]
pub enum Origin {
    /// The cache had it.
    Hit,
    /// The decider was asked.
    Asked,
}

/// A vector, and where it comes from.
#[derive(Clone, Copy, Debug, PartialEq, Eq)]
pub struct Checked {
    pub vector: Vector,
    pub origin: Origin,
}

/// The decider's vector of a key for the version of the seat's pass, from the cache where the key's row has it
/// under the pass's number, whatever others raise or fill meanwhile.
pub fn check<V: Journal<D>, D: Decider>(
    gate: &Gate<V, D>,
    seat: &mut Seat<V, D>,
    s: Sid,
    t: Sid,
    c: Class,
) -> Checked
    requires gate { IsOfGate gate.now seat.old }
    requires pass { HasPass seat.old }
    requires source { IsTrue ((D.decides (decider_of gate.now)).known s) }
    requires target { IsTrue ((D.decides (decider_of gate.now)).known t) }
    ensures vector { result.vector ≡ vector_for D.decides gate.now seat.old (key_of s t c) }
    ensures origin { IsShown (key_of s t c) seat.old seat.new result.vector result.origin }
    ensures served { keys_served seat.new ≡ keys_served seat.old ++ key_of s t c ∷ [] }
    ensures same { IsSame seat.old seat.new }
    ensures gate { IsOfGate gate.now seat.new }
{
    if let Some(vector) = gate.look(seat, s, t, c) {
        return Checked {
            vector,
            origin: Origin::Hit,
        };
    }
    let Some((_, version)) = seat.pass() else {
        unreachable!()
    };
    let vector = gate.decider().vector(version, s, t, c);
    gate.fill(seat, s, t, c, vector);
    Checked {
        vector,
        origin: Origin::Asked,
    }
}
