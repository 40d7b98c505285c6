//! The two callbacks that meet the rules.

use crate::rule::Callback;
use access_vectors::Vector;

/// The callback of rule `Each`: the permissions of the mode that the vector has.
#[derive(Clone, Copy, Debug)]
pub struct EachBits;

impl Callback for EachBits {
    ghost use Rattle.std.specs.Prelude.{◌≡◌, bit_and};

    ghost may = { λ callback mode vector. Unit {0} };

    ghost gives = { λ callback mode vector bits. bits ≡ bit_and mode vector };

    fn apply(&self, mode: Vector, vector: Vector) -> Vector {
        mode.both(vector)
    }
}

/// The callback of rule `All`: the mode where the vector has the whole of it, and else nothing.
#[derive(Clone, Copy, Debug)]
pub struct AllBits;

impl Callback for AllBits {
    ghost use Rattle.std.specs.Prelude.{◌≡◌, ◌==◌, bit_and, if◌then◌else◌};

    ghost may = { λ callback mode vector. Unit {0} };

    ghost gives = { λ callback mode vector bits. bits ≡ (if bit_and mode vector == mode then mode else 0) };

    fn apply(&self, mode: Vector, vector: Vector) -> Vector {
        if mode.both(vector).bits() == mode.bits() {
            mode
        } else {
            Vector::empty()
        }
    }
}
