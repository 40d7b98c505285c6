//! Hops and paths.

ghost use Rattle.std.specs.Prelude.{◌≡◌, length};

use access_vectors::Perm;
use std::marker::Model;

/// One hop: from a type to another, by the question whether a source may do something to a target. Types are given by their
/// places in the order of declaration, counted from 0.
#[derive(Clone, Copy, Debug, PartialEq, Eq)]
pub struct Hop {
    pub from: u8,
    pub to: u8,
    pub s: u8,
    pub t: u8,
    pub perm: Perm,
}

/// Hops that join. Contracts see their list.
#[derive(Debug, Drop)]
pub struct Path {
    hops: Vec<Hop>,
}

impl Model for Path {
    ghost use Rattle.std.specs.Prelude.{List};
    ghost use Rattle.flow_query.specs.declared.hop.Hop.{Hop};

    ghost Value = { List Hop };

    ghost view = { λ path. path.hops.items };
}

impl Path {
    /// The path of these hops. It takes no memory.
    pub(crate) fn of(hops: Vec<Hop>) -> Path
        ensures { result ≡ hops.items }
    {
        Path { hops }
    }

    /// The hops from the beginning on.
    pub fn hops(&self) -> &[Hop]
        ensures { result.now ≡ self.now }
    {
        self.hops.as_slice()
    }
}
