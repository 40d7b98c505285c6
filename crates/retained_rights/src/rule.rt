//! The rule from mode and vector to usable bits.

ghost use Rattle.std.specs.Prelude.{ℕ};

use access_vectors::Vector;

/// Which permissions of a slot's mode are usable: each that the vector has, or all of the mode where the vector has the
/// whole of it, and else none.
#[derive(Clone, Copy, Debug, PartialEq, Eq)]
pub enum Rule {
    Each,
    All,
}

/// A manager's revocation callback: from the mode of a slot and the vector on its pair to the bits that are usable.
pub trait Callback {
    /// It may be called on that mode and that vector.
    ghost may: { Self → ℕ → ℕ → Type 0 };

    /// It gives these bits for that mode and that vector.
    ghost gives: { Self → ℕ → ℕ → ℕ → Type 0 };

    /// The usable bits of a mode under a vector.
    fn apply(&self, mode: Vector, vector: Vector) -> Vector
        requires { may self.now mode vector }
        ensures { gives self.now mode vector result };
}
