//! Numbers by names.

ghost use Rattle.std.specs.Prelude.{◌≡◌, OnOk, OnErr, IfOk, take, drop};
ghost use Rattle.std.specs.FinMap as maps;

use flask_sid::{Memory, Piece, Rows};
use std::alloc::Global;
use std::collections::BTreeMap;
use std::marker::Model;

/// Numbers by names, in byte order of the names. Contracts see a finite map.
#[derive(Debug, Drop)]
pub struct Shelf {
    rows: BTreeMap<Vec<u8>, u32>,
}

impl Model for Shelf {
    ghost use Rattle.std.specs.Prelude.{ℕ};
    ghost use Rattle.file_tree.specs.Shelves.{map_by};
    ghost use Rattle.std.specs.Ordering.{nat_cmp};
    ghost use Rattle.std.specs.Cmp.Lexicographic.{slice_cmp};
    ghost use Rattle.std.specs.FinMap as maps;
    ghost use Rattle.std.specs.Coded.{coded_list, coded_ℕ};

    ghost Value = { maps.FinMap (slice_cmp nat_cmp) ℕ };

    ghost coded = { maps.code (coded_list coded_ℕ) coded_ℕ };

    ghost view = { λ shelf. map_by (λ name. name.items) shelf.rows.entries };
}

impl Shelf {
    /// No name, which takes no memory yet.
    pub fn new(alloc: Global) -> Shelf
        ensures { result ≡ maps.empty }
    {
        Shelf {
            rows: BTreeMap::new(alloc),
        }
    }

    /// The number of a name, if it is there.
    pub fn get(&self, name: &[u8]) -> Option<u32>
        ensures { result ≡ maps.get self.now name.now }
    {
        self.rows.get(name).copied()
    }

    /// How many names there are.
    pub fn len(&self) -> usize
        ensures { result ≡ maps.len self.now }
    {
        self.rows.len()
    }

    /// Gives a name its number. After `Memory` all is as before.
    pub fn insert(&mut self, name: Vec<u8>, number: u32) -> Result<(), Memory>
        ensures ok { OnOk result (self.new ≡ maps.insert self.old name.items number) }
        ensures err { OnErr result (self.new ≡ self.old) }
    {
        self.rows.insert(name, number)?;
        Ok(())
    }

    /// Takes a name out, if it is there.
    pub fn remove(&mut self, name: &[u8])
        ensures { self.new ≡ maps.remove self.old name.now }
    {
        let _ = self.rows.remove(name);
    }

    /// The names in byte order, without the first `skip` of them, and at most `most`.
    pub fn names(&self, alloc: Global, skip: usize, most: usize) -> Result<Rows<Piece>, Memory>
        ensures { IfOk result (λ names. names ≡ take most (drop skip (maps.keys self.now))) }
    {
        let mut names = Rows::new(alloc);
        let mut passed: usize = 0;
        for name in self.rows.keys() {
            if names.len() >= most {
                return Ok(names);
            }
            if passed < skip {
                passed += 1;
            } else {
                names.push(Piece::of(alloc, name.as_slice())?)?;
            }
        }
        Ok(names)
    }
}
