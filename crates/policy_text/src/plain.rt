//! Names that are found at first sight.

ghost use Rattle.std.specs.Prelude.{◌≡◌, [], ◌∷◌, ◌++◌, IsTrue, OnOk, OnErr};
ghost use Rattle.std.specs.List.{Contains};

use flask_sid::{Memory, Rows, Word};
use policy_model::Guesses;
use std::alloc::Global;
use std::marker::Model;

/// Declared names, of which nearly all are found at a guess. Contracts see their list.
#[derive(Drop)]
pub(crate) struct PlainNames<'a> {
    names: Rows<Word<'a>>,
    guesses: Guesses,
}

impl<'a> Model for PlainNames<'a> {
    ghost use Rattle.std.specs.Prelude.{List, ℕ};

    ghost Value = { List (List ℕ) };

    ghost view = { λ plain. plain.names };
}

impl<'a> PlainNames<'a> {
    /// No names.
    pub(crate) fn new(alloc: Global) -> PlainNames<'a>
        ensures { result ≡ [] }
    {
        PlainNames {
            names: Rows::new(alloc),
            guesses: Guesses::new(),
        }
    }

    /// Whether a name is where it is guessed to be, and so has what all of the names have. Where it is not, nothing is known.
    #[inline(always)]
    pub(crate) fn has(&self, name: &Word<'a>) -> bool
        ensures { IsTrue result → Contains self.now name.now }
    {
        match self.names.get(self.guesses.place(name.as_bytes())) {
            Some(kept) => kept.is(name.as_bytes()),
            None => false,
        }
    }

    /// Adds a name. After `Memory` the names are as before.
    pub(crate) fn add(&mut self, name: &Word<'a>) -> Result<(), Memory>
        ensures ok { OnOk result (self.new ≡ self.old ++ name.now ∷ []) }
        ensures err { OnErr result (self.new ≡ self.old) }
    {
        let place = self.names.len();
        self.names.push(name.again())?;
        self.guesses.note(name.as_bytes(), place);
        Ok(())
    }
}
