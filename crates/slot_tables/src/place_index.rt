//! Places by name.

ghost use Rattle.std.specs.Prelude.{◌≡◌, ℕ, ◌+◌, ◌*◌, ◌/◌, ◌<◌, ◌==◌, ◌&&◌, ◌||◌, not, true, [], OnOk, OnErr};
ghost use Rattle.std.specs.Ordering.{nat_cmp};
ghost use Rattle.std.specs.List.Sorted.{IsStrictlySortedBy};
ghost use Rattle.std.specs.Map.{keys_of};
ghost use Rattle.slot_tables.specs.Words.{IsNext};
ghost use Rattle.slot_tables.specs.Rows;
ghost use Rattle.slot_tables.specs.Rows.{on, has_row, IsNextRow};

use flask_sid::Memory;
use std::alloc::Global;
use std::collections::BTreeMap;
use std::collections::btree_map::Iter;
use std::marker::Model;

/// Places below 65,536 by name: which places each name has. Contracts see the rows, each a key and a word of 64 places, in
/// the order of their keys, and so the rows of one name stand together.
#[derive(Debug, Drop)]
pub struct PlaceIndex {
    rows: BTreeMap<u64, u64>,
}

impl Model for PlaceIndex {
    ghost use Rattle.std.specs.Prelude.{ℕ, List};

    ghost Value = { List (ℕ × ℕ) };

    ghost view = { λ index. index.rows.entries };
}

// The key of the row in which a name has a place.
fn row_key(name: u32, place: u32) -> u64
    ensures { result ≡ Rows.row_key name place }
{
    1024 * u64::from(name) + u64::from(place / 64)
}

// The first row from one key up to another.
fn first_row(rows: &BTreeMap<u64, u64>, low: u64, end: u64) -> Option<(u64, u64)>
    requires { low < end }
    ensures { IsNextRow rows.now.entries low end result }
{
    let (key, word) = rows.range(low..end).next()?;
    Some((*key, *word))
}

impl PlaceIndex {
    /// No place, which takes no memory yet.
    pub fn new(alloc: Global) -> PlaceIndex
        ensures { result ≡ [] }
    {
        PlaceIndex {
            rows: BTreeMap::new(alloc),
        }
    }

    /// The rows, in the order of their keys.
    pub fn rows(&self) -> Iter<'_, u64, u64>
        ensures rows { result ≡ self.now }
        ensures ordered { IsStrictlySortedBy nat_cmp (keys_of self.now) }
    {
        self.rows.iter()
    }

    /// Makes the row in which the name would have the place. The names have what they had, also after `Memory`.
    pub fn make_row(&mut self, name: u32, place: u32) -> Result<(), Memory>
        ensures on { (n q : ℕ) → on self.new n q ≡ on self.old n q }
        ensures rows { (n q : ℕ) → has_row self.old n q ≡ true → has_row self.new n q ≡ true }
        ensures made { OnOk result (has_row self.new name place ≡ true) }
    {
        let key = row_key(name, place);
        if !self.rows.contains_key(&key) {
            self.rows.insert(key, 0)?;
        }
        Ok(())
    }

    /// Gives the name a place. After `Memory` all is as before.
    pub fn put(&mut self, name: u32, place: u32) -> Result<(), Memory>
        requires { place < 65536 }
        ensures on { OnOk result ((n q : ℕ) → on self.new n q ≡ ((n == name && q == place) || on self.old n q)) }
        ensures as_before { OnErr result (self.new ≡ self.old) }
    {
        let key = row_key(name, place);
        let bit = 1 << (place % 64);
        if let Some(word) = self.rows.get_mut(&key) {
            *word |= bit;
            return Ok(());
        }
        self.rows.insert(key, bit)?;
        Ok(())
    }

    /// Gives the name a place for which there is a row.
    pub fn add(&mut self, name: u32, place: u32)
        requires small { place < 65536 }
        requires row { has_row self.old name place ≡ true }
        ensures on { (n q : ℕ) → on self.new n q ≡ ((n == name && q == place) || on self.old n q) }
        ensures rows { (n q : ℕ) → has_row self.old n q ≡ true → has_row self.new n q ≡ true }
    {
        let key = row_key(name, place);
        let Some(word) = self.rows.get_mut(&key) else {
            unreachable!()
        };
        *word |= 1 << (place % 64);
    }

    /// Takes a place from the name, if it has it. A row of the name that has no place any more is given up.
    pub fn remove(&mut self, name: u32, place: u32)
        requires { place < 65536 }
        ensures on { (n q : ℕ) → on self.new n q ≡ (not (n == name && q == place) && on self.old n q) }
        ensures rows { (n q : ℕ) → q < 65536 → (n ≡ name → ⊥) → has_row self.old n q ≡ true → has_row self.new n q ≡ true }
    {
        let key = row_key(name, place);
        let Some(word) = self.rows.get_mut(&key) else {
            return;
        };
        let rest = *word & !(1 << (place % 64));
        *word = rest;
        if rest == 0 {
            let _ = self.rows.remove(&key);
        }
    }

    /// The first place of the name from a bound on, or `None` exactly where there is none.
    pub fn next(&self, name: u32, from: u32) -> Option<u32>
        ensures { IsNext (on self.now name) from result }
    {
        let end = 1024 * (u64::from(name) + 1);
        let mut low = row_key(name, from);
        while low < end {
            let (key, word) = first_row(&self.rows, low, end)?;
            let block = 64 * (key % 1024) as u32;
            let skip = from.saturating_sub(block);
            let rest = word >> skip;
            if rest != 0 {
                return Some(block + skip + rest.trailing_zeros());
            }
            low = key + 1;
        }
        None
    }
}
