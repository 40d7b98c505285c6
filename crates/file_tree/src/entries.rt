//! The entries of directories, by place and name.

ghost use Rattle.std.specs.Prelude.{◌≡◌, ℕ, List, None, Some, OnOk, OnErr, IfOk, take, drop};
ghost use Rattle.std.specs.FinMap as maps;
ghost use Rattle.file_tree.specs.Shelves.{number_at, changed_at, count_on, names_on};

use crate::shelf::Shelf;
use flask_sid::{Memory, Piece, Rows};
use std::alloc::Global;
use std::collections::BTreeMap;
use std::marker::Model;

/// Shelves of names by their places. Contracts see finite maps.
#[derive(Debug, Drop)]
pub struct EntryIndex {
    shelves: BTreeMap<u64, Shelf>,
}

impl Model for EntryIndex {
    ghost use Rattle.std.specs.Prelude.{ℕ};
    ghost use Rattle.std.specs.Ordering.{nat_cmp};
    ghost use Rattle.std.specs.Cmp.Lexicographic.{slice_cmp};
    ghost use Rattle.std.specs.FinMap as maps;
    ghost use Rattle.std.specs.Coded.{coded_list, coded_ℕ};
    ghost use Rattle.file_tree.specs.Shelves.{Places, map_by};

    ghost Value = { Places };

    ghost coded = { maps.code coded_ℕ (maps.code (coded_list coded_ℕ) coded_ℕ) };

    ghost view = { λ index. map_by (λ place. place) index.shelves.entries };
}

impl EntryIndex {
    /// No entry, which takes no memory yet.
    pub fn new(alloc: Global) -> EntryIndex
        ensures { result ≡ maps.empty }
    {
        EntryIndex {
            shelves: BTreeMap::new(alloc),
        }
    }

    /// The number of a name at a place, if it is there.
    pub fn get(&self, place: u64, name: &[u8]) -> Option<u32>
        ensures { result ≡ number_at self.now place name.now }
    {
        self.shelves.get(&place)?.get(name)
    }

    /// How many names stand at a place.
    pub fn count(&self, place: u64) -> usize
        ensures { result ≡ count_on (maps.get self.now place) }
    {
        match self.shelves.get(&place) {
            Some(shelf) => shelf.len(),
            None => 0,
        }
    }

    /// The names at a place in byte order, without the first `skip` of them, and at most `most`.
    pub fn names(
        &self,
        alloc: Global,
        place: u64,
        skip: usize,
        most: usize,
    ) -> Result<Rows<Piece>, Memory>
        ensures { IfOk result (λ names. names ≡ take most (drop skip (names_on (maps.get self.now place)))) }
    {
        match self.shelves.get(&place) {
            Some(shelf) => shelf.names(alloc, skip, most),
            None => Ok(Rows::new(alloc)),
        }
    }

    /// Gives a name at a place its number. After `Memory` all is as before.
    pub fn add(
        &mut self,
        alloc: Global,
        place: u64,
        name: Vec<u8>,
        number: u32,
    ) -> Result<(), Memory>
        ensures ok { OnOk result ((p : ℕ) (q : List ℕ) → number_at self.new p q ≡ changed_at self.old place name.items (Some number) p q) }
        ensures err { OnErr result (self.new ≡ self.old) }
    {
        if let Some(shelf) = self.shelves.get_mut(&place) {
            let Ok(()) = shelf.insert(name, number) else {
                return Err(Memory);
            };
            return Ok(());
        }
        let mut shelf = Shelf::new(alloc);
        shelf.insert(name, number)?;
        self.shelves.insert(place, shelf)?;
        Ok(())
    }

    /// Takes a name from a place, if it is there.
    pub fn remove(&mut self, place: u64, name: &[u8])
        ensures { (p : ℕ) (q : List ℕ) → number_at self.new p q ≡ changed_at self.old place name.now None p q }
    {
        let Some(shelf) = self.shelves.get_mut(&place) else {
            return;
        };
        shelf.remove(name);
    }
}
