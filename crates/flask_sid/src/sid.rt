//! Security identifiers.

ghost use Rattle.std.specs.Prelude.{◌≡◌, ◌+◌, ◌-◌, ◌<◌, ◌≤◌, SomeIff};

use std::marker::Model;

/// A security identifier: a number from 1 to 4,095 that stands for one context. Contracts see the number.
#[derive(Clone, Copy, Debug, PartialEq, Eq)]
pub struct Sid {
    number: u16,
}

impl Model for Sid {
    ghost use Rattle.std.specs.Prelude.{ℕ, ◌<◌};

    ghost Value = { ℕ };

    ghost view = { λ sid. sid.number };

    ghost invariant = { λ sid. (0 < sid.number) × (sid.number < 4096) };

    ghost inverse = { λ n. record { number = n } };
}

impl Sid {
    /// The identifier of a number, or `None` exactly where it is not 1 to 4,095.
    pub fn of(n: u16) -> Option<Sid>
        ensures { SomeIff result ((0 < n) × (n < 4096)) n }
    {
        if n >= 1 && n <= 4095 {
            Some(Sid { number: n })
        } else {
            None
        }
    }

    /// The number, from 1 to 4,095.
    pub fn number(self) -> u16
        ensures value { result ≡ self }
        ensures positive { 0 < result }
        ensures within { result < 4096 }
    {
        self.number
    }

    // The identifier whose place in the order of numbers, counted from 0, is this.
    pub(crate) fn at_place(place: usize) -> Sid
        requires { place < 4095 }
        ensures { result ≡ place + 1 }
    {
        Sid {
            number: place as u16 + 1,
        }
    }

    // The place of the identifier in the order of numbers, counted from 0.
    pub(crate) fn place(self) -> usize
        ensures value { result ≡ self - 1 }
        ensures positive { 0 < self }
    {
        usize::from(self.number - 1)
    }
}
