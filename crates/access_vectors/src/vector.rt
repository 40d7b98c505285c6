//! Access vectors: sets of permissions of one class.

ghost use Rattle.std.specs.Prelude.{◌≡◌, ◌<◌, bit_and};
ghost use Rattle.access_vectors.specs.Vectors;

use std::marker::Model;

/// A set of permissions of one class: bit i of the number tells whether the permission at index i is in it.
/// Contracts see the number, which is below 65,536.
#[derive(Clone, Copy, Debug, PartialEq, Eq)]
pub struct Vector {
    bits: u16,
}

impl Model for Vector {
    ghost use Rattle.std.specs.Prelude.{ℕ, ◌<◌};

    ghost Value = { ℕ };

    ghost view = { λ vector. vector.bits };

    ghost invariant = { λ vector. vector.bits < 65536 };

    ghost inverse = { λ bits. record { bits = bits } };
}

impl Vector {
    /// The vector with no permission.
    pub fn empty() -> Vector
        ensures { result ≡ 0 }
    {
        Vector { bits: 0 }
    }

    /// The vector of a number's bits.
    pub fn of(bits: u16) -> Vector
        ensures { result ≡ bits }
    {
        Vector { bits }
    }

    /// The number.
    pub fn bits(self) -> u16
        ensures value { result ≡ self }
        ensures within { result < 65536 }
    {
        self.bits
    }

    /// Whether the permission at an index is in the vector.
    #[tactic(auto, unfolding(crate::specs::Vectors::has))]
    pub fn has(self, index: u8) -> bool
        requires { index < 16 }
        ensures { result ≡ Vectors.has self index }
    {
        (self.bits >> index) % 2 == 1
    }

    /// The vector with the permission at an index besides.
    #[tactic(auto, unfolding(crate::specs::Vectors::with_index))]
    pub fn with(self, index: u8) -> Vector
        requires { index < 16 }
        ensures { result ≡ Vectors.with_index self index }
    {
        Vector {
            bits: self.bits | (1 << index),
        }
    }

    /// The vector without the permission at an index.
    #[tactic(auto, unfolding(crate::specs::Vectors::without_index))]
    pub fn without(self, index: u8) -> Vector
        requires { index < 16 }
        ensures { result ≡ Vectors.without_index self index }
    {
        Vector {
            bits: self.bits & !(1 << index),
        }
    }

    /// The permissions that both vectors have.
    pub fn both(self, other: Vector) -> Vector
        ensures { result ≡ bit_and self other }
    {
        Vector {
            bits: self.bits & other.bits,
        }
    }
}
