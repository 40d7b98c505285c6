//! A table of slots.

ghost use Rattle.std.specs.Prelude.{◌≡◌, ◌<◌, ◌≤◌, None, [], length, OnOk};
ghost use Rattle.std.specs.FinMap as maps;
ghost use Rattle.slot_tables.specs.Slots.{map_of, slot_at};

use flask_sid::Memory;
use std::alloc::Global;
use std::marker::Model;

/// A table of numbered slots, each of which may hold a value. Contracts see the list of its slots.
#[derive(Debug, Drop)]
pub struct Table<V> {
    slots: Vec<Option<V>>,
}

impl<V> Model for Table<V> {
    ghost use Rattle.std.specs.Prelude.{List, Option};

    ghost Value = { List (Option V) };

    ghost view = { λ table. table.slots.items };
}

impl<V: Copy> Table<V> {
    /// No slot, which takes no memory yet.
    pub fn new(alloc: Global) -> Self
        ensures { result ≡ [] }
    {
        Table {
            slots: Vec::new(alloc),
        }
    }

    /// Makes room for a slot. All holds what it held, also after `Memory`.
    pub fn grow(&mut self, place: u32) -> Result<(), Memory>
        ensures map { map_of self.new ≡ map_of self.old }
        ensures room { OnOk result (place < length self.new) }
    {
        while self.slots.len() <= place as usize {
            self.slots.push(None)?;
        }
        Ok(())
    }

    /// What a slot holds, if it is used.
    pub fn get(&self, place: u32) -> Option<V>
        ensures slot { result ≡ slot_at self.now place }
        ensures value { result ≡ maps.get (map_of self.now) place }
    {
        self.slots.as_slice().get(place as usize).copied().flatten()
    }

    /// Puts a value into a slot for which there is room.
    pub fn set(&mut self, place: u32, value: V)
        requires { place < length self.old }
        ensures map { map_of self.new ≡ maps.insert (map_of self.old) place value }
        ensures room { length self.new ≡ length self.old }
    {
        self.slots[place as usize] = Some(value);
    }

    /// Makes a slot free.
    pub fn clear(&mut self, place: u32)
        ensures map { map_of self.new ≡ maps.remove (map_of self.old) place }
        ensures room { length self.new ≡ length self.old }
    {
        if (place as usize) < self.slots.len() {
            self.slots[place as usize] = None;
        }
    }
}
