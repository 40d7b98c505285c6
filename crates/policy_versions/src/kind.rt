//! A type by its place among the declared ones.

ghost use Rattle.std.specs.Prelude.{◌≡◌, ◌<◌, SomeIff};

use std::marker::Model;

/// A type by its place among the declared types. Contracts see the place, which is below 128.
#[derive(Clone, Copy, Debug, PartialEq, Eq)]
pub struct Kind {
    place: u8,
}

impl Model for Kind {
    ghost use Rattle.std.specs.Prelude.{ℕ, ◌<◌};

    ghost Value = { ℕ };

    ghost view = { λ kind. kind.place };

    ghost invariant = { λ kind. kind.place < 128 };

    ghost inverse = { λ place. record { place = place } };
}

impl Kind {
    /// The type at a place, or `None` exactly where the place is not below 128.
    pub fn of(place: usize) -> Option<Kind>
        ensures { SomeIff result (place < 128) place }
    {
        if place < 128 {
            Some(Kind { place: place as u8 })
        } else {
            None
        }
    }

    // The type at a place that is known to be below 128.
    pub(crate) fn at(place: usize) -> Kind
        requires { place < 128 }
        ensures { result ≡ place }
    {
        Kind { place: place as u8 }
    }

    /// The place among the declared types, counted from 0.
    pub fn place(self) -> u8
        ensures value { result ≡ self }
        ensures within { result < 128 }
    {
        self.place
    }
}
