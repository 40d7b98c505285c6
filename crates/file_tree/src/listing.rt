//! What directories hold.

ghost use Rattle.std.specs.Prelude.{◌≡◌, true, length, take, drop, IfOk, MatchBool};
ghost use Rattle.std.specs.List.{list_any};
ghost use Rattle.std.specs.FinMap as maps;
ghost use Rattle.file_tree.specs.Nodes;
ghost use Rattle.file_tree.specs.PlainTree.{plain, names_below, has_entry_below};
ghost use Rattle.file_tree.specs.Nodes.{HasEntry, HasNoEntry, IsCount, IsPage, is_directory, path_in};

use crate::node::Node;
use crate::tree::{Tree, place_of};
use flask_sid::{Memory, Piece, Rows};
use std::alloc::Global;

/// What directories hold.
impl Tree {
    /// The names of a directory's entries under a key in byte order, without the first `skip` of them, and at most `most`.
    pub fn names(
        &self,
        alloc: Global,
        directory: u32,
        key: u16,
        skip: usize,
        most: usize,
    ) -> Result<Rows<Piece>, Memory>
        requires { is_directory (maps.get self.now directory) ≡ true }
        ensures page { IfOk result (λ names. IsPage self.now (path_in self.now directory) key skip most names) }
        ensures plain { IfOk result (λ names. names ≡ take most (drop skip (names_below (plain self.now) (path_in self.now directory) key))) }
    {
        self.entries
            .names(alloc, place_of(directory, key), skip, most)
    }

    /// How many entries a directory has under a key.
    pub fn count(&self, directory: u32, key: u16) -> usize
        requires { is_directory (maps.get self.now directory) ≡ true }
        ensures count { IsCount self.now (path_in self.now directory) key result }
        ensures plain { result ≡ length (names_below (plain self.now) (path_in self.now directory) key) }
    {
        self.entries.count(place_of(directory, key))
    }

    /// Whether a directory has an entry under any key.
    pub fn has_entries(&self, directory: u32) -> bool
        requires { is_directory (maps.get self.now directory) ≡ true }
        ensures entry { MatchBool result (HasEntry self.now (path_in self.now directory)) (HasNoEntry self.now (path_in self.now directory)) }
        ensures plain { result ≡ has_entry_below (plain self.now) (path_in self.now directory) }
    {
        some_in(self.slots.as_slice(), directory)
    }
}

// Whether some slot holds a node that stands in a directory.
fn some_in(slots: &[Option<Node>], directory: u32) -> bool
    ensures { result ≡ list_any (Nodes.is_in directory) slots.now }
{
    slots.iter().any(|slot| is_in(slot, directory))
}

// Whether a slot holds a node that stands in a directory.
fn is_in(slot: &Option<Node>, directory: u32) -> bool
    ensures { result ≡ Nodes.is_in directory slot.now }
{
    match slot {
        Some(node) => node.parent == directory && !node.path.is_empty(),
        None => false,
    }
}
