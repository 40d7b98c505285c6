//! Paths by an index: whether a path is there is told without a walk over all of them.

ghost use Rattle.std.specs.Prelude.{◌≡◌, [], ◌∷◌, ◌++◌, false, OnOk, OnErr};
ghost use Rattle.std.specs.List.{list_any, position};
ghost use Rattle.file_calls.specs.Paths.{same_path};
ghost use Rattle.session_forms.specs.Arguments.{is_root};

use crate::parts::Parts;
use flask_sid::Memory;
use std::alloc::Global;
use std::marker::Model;
use text_lines::WordIndex;

/// Paths below the root by an index, each of them once. Contracts see their list, in the order in which they were added.
#[derive(Drop)]
pub struct PathIndex<'a> {
    texts: WordIndex<'a>,
}

impl<'a> Model for PathIndex<'a> {
    ghost use Rattle.std.specs.Prelude.{List, ℕ, map};
    ghost use Rattle.std.specs.List.{slice_split};
    ghost use Rattle.session_forms.specs.PathForms.{is_slash};

    ghost Value = { List (List (List ℕ)) };

    ghost view = { λ index. map (slice_split is_slash) index.texts };
}

impl<'a> PathIndex<'a> {
    /// The index of no path, which takes no memory yet.
    pub fn new(alloc: Global) -> PathIndex<'a>
        ensures { result ≡ [] }
    {
        PathIndex {
            texts: WordIndex::new(alloc),
        }
    }

    /// The place of a path, or `None` exactly where it was not added. The root never was.
    pub fn place(&self, path: &Parts<'a>) -> Option<usize>
        ensures { result ≡ position (λ kept. same_path kept path.now) self.now }
    {
        match path.text() {
            None => None,
            Some(text) => self.texts.place(&text),
        }
    }

    /// Whether a path was added. The root never was.
    pub fn has(&self, path: &Parts<'a>) -> bool
        ensures { result ≡ list_any (λ kept. same_path kept path.now) self.now }
    {
        match path.text() {
            None => false,
            Some(text) => self.texts.has(&text),
        }
    }

    /// Adds a path below the root that was not added yet. After `Memory` the index is as before.
    pub fn add(&mut self, path: &Parts<'a>) -> Result<(), Memory>
        requires root { is_root path.now ≡ false }
        requires new { list_any (λ kept. same_path kept path.now) self.old ≡ false }
        ensures ok { OnOk result (self.new ≡ self.old ++ path.now ∷ []) }
        ensures err { OnErr result (self.new ≡ self.old) }
    {
        match path.text() {
            None => unreachable!(),
            Some(text) => self.texts.add(&text),
        }
    }
}
