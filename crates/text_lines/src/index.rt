//! Words of a text by an index: a word's place is found without a walk over all of them.

ghost use Rattle.std.specs.Prelude.{◌≡◌, ◌<◌, [], ◌∷◌, ◌++◌, false, length, OnOk, OnErr, IfSome};
ghost use Rattle.std.specs.List.{list_any, position};
ghost use Rattle.std.specs.Str.{bytes_eq};
ghost use Rattle.std.proofs.Common.{rules};
ghost use Rattle.std.specs.Hash as fed;
ghost use Rattle.std.specs.Cmp.Rules.{comparing, hashing};

use flask_sid::{Memory, Word};
use indexmap::IndexSet;
use std::alloc::Global;
use std::hash::{Hash, Hasher};
use std::marker::Model;

/// A word as the key of an index. Contracts see its bytes.
#[derive(Debug)]
pub struct Key<'a> {
    bytes: &'a [u8],
}

impl<'a> Model for Key<'a> {
    ghost use Rattle.std.specs.Prelude.{List, ℕ};

    ghost Value = { List ℕ };

    ghost view = { λ key. key.bytes.now };
}

impl Drop for Key<'_> {
    fn drop(self) {
        let Key { bytes: _ } = self;
    }
}

impl<'a> Key<'a> {
    /// The key that a word is.
    pub fn of(word: &Word<'a>) -> Key<'a>
        ensures { result ≡ word.now }
    {
        Key {
            bytes: word.as_bytes(),
        }
    }
}

impl PartialEq for Key<'_> {
    ghost eq = { bytes_eq };

    ghost laws = { Prim.search (comparing, rules) };

    fn eq(&self, other: &Self) -> bool {
        self.bytes == other.bytes
    }
}

impl Eq for Key<'_> {
    ghost laws = { Prim.search (comparing, rules) };
}

impl Hash for Key<'_> {
    ghost hash_input = { fed.slice fed.u8 };

    ghost respects_eq = { Prim.search (hashing, rules) };

    fn hash<H: Hasher>(&self, state: &mut H) {
        self.bytes.hash(state);
    }
}

/// Words by an index, each of them once. Contracts see their list, in the order in which they were added.
#[derive(Drop)]
pub struct WordIndex<'a> {
    words: IndexSet<Key<'a>>,
}

impl<'a> Model for WordIndex<'a> {
    ghost use Rattle.std.specs.Prelude.{List, ℕ};

    ghost Value = { List (List ℕ) };

    ghost view = { λ index. index.words.keys };
}

impl<'a> WordIndex<'a> {
    /// The index of no word, which takes no memory yet.
    pub fn new(alloc: Global) -> WordIndex<'a>
        ensures { result ≡ [] }
    {
        WordIndex {
            words: IndexSet::new(alloc),
        }
    }

    /// The place of a word, or `None` exactly where it was not added.
    pub fn place(&self, word: &Word<'a>) -> Option<usize>
        ensures value { result ≡ position (bytes_eq word.now) self.now }
        ensures within { IfSome result (λ place. place < length self.now) }
    {
        self.words.get_index_of(&Key::of(word))
    }

    /// Whether a word was added.
    pub fn has(&self, word: &Word<'a>) -> bool
        ensures { result ≡ list_any (bytes_eq word.now) self.now }
    {
        self.words.contains(&Key::of(word))
    }

    /// Adds a word that was not added yet. After `Memory` the index is as before.
    pub fn add(&mut self, word: &Word<'a>) -> Result<(), Memory>
        requires { list_any (bytes_eq word.now) self.old ≡ false }
        ensures ok { OnOk result (self.new ≡ self.old ++ word.now ∷ []) }
        ensures err { OnErr result (self.new ≡ self.old) }
    {
        self.words.insert(Key::of(word))?;
        Ok(())
    }
}
