//! A set of places.

ghost use Rattle.std.specs.Prelude.{◌≡◌, ℕ, ◌+◌, ◌*◌, ◌/◌, ◌%◌, ◌<◌, ◌≤◌, ◌==◌, ◌&&◌, ◌||◌, not, true, [], ◌∷◌, length, IfSome, OnOk};
ghost use Rattle.slot_tables.specs.Words.{has_bit, holds, places, IsNext};

use flask_sid::Memory;
use std::alloc::Global;
use std::marker::Model;

/// A set of places below 65,536. Contracts see its words, of 64 places each.
#[derive(Debug, Drop)]
pub struct PlaceSet {
    words: Vec<u64>,
    count: u64,
}

impl Model for PlaceSet {
    ghost use Rattle.std.specs.Prelude.{ℕ, List, ◌≡◌, ◌≤◌, length};
    ghost use Rattle.slot_tables.specs.Words.{places};

    ghost Value = { List ℕ };

    ghost view = { λ set. set.words.items };

    ghost invariant = { λ set. (set.count ≡ length (places set.words.items)) × (length set.words.items ≤ 1024) };
}

// Adds words that hold no place, up to a number of words.
fn grow_words(words: &mut Vec<u64>, len: usize) -> Result<(), Memory>
    ensures held { (q : ℕ) → holds words.new.items q ≡ holds words.old.items q }
    ensures room { OnOk result (len ≤ length words.new.items) }
    ensures more { length words.old.items ≤ length words.new.items }
    ensures limit { (limit : ℕ) → len ≤ limit → length words.old.items ≤ limit → length words.new.items ≤ limit }
{
    while words.len() < len {
        words.push(0)?;
    }
    Ok(())
}

impl PlaceSet {
    /// The empty set, which takes no memory yet.
    #[tactic(auto, unfolding(crate::specs::Words::places, crate::specs::Words::places_from))]
    pub fn new(alloc: Global) -> PlaceSet
        ensures { result ≡ [] }
    {
        PlaceSet {
            words: Vec::new(alloc),
            count: 0,
        }
    }

    /// How many places are in the set.
    pub fn len(&self) -> u64
        ensures { result ≡ length (places self.now) }
    {
        self.count
    }

    /// Makes room for a place. The set is as before, also after `Memory`.
    pub fn grow(&mut self, place: u32) -> Result<(), Memory>
        requires { place < 65536 }
        ensures held { (q : ℕ) → holds self.new q ≡ holds self.old q }
        ensures room { OnOk result (place < 64 * length self.new) }
        ensures more { length self.old ≤ length self.new }
    {
        grow_words(&mut self.words, place as usize / 64 + 1)
    }

    /// Adds a place for which there is room.
    pub fn add(&mut self, place: u32)
        requires { place < 64 * length self.old }
        ensures held { (q : ℕ) → holds self.new q ≡ (q == place || holds self.old q) }
        ensures room { length self.new ≡ length self.old }
    {
        let block = place as usize / 64;
        let old = self.words[block];
        let bit = 1 << (place % 64);
        if old & bit == 0 {
            self.words[block] = old | bit;
            self.count += 1;
        }
    }

    /// Adds the places of a word's bits to the word of that block.
    pub fn add_word(&mut self, block: usize, word: u64)
        requires { block < length self.old }
        ensures held { (q : ℕ) → holds self.new q ≡ (holds self.old q || (q / 64 == block && has_bit word (q % 64))) }
        ensures room { length self.new ≡ length self.old }
    {
        let old = self.words[block];
        let new = old | word;
        self.words[block] = new;
        self.count = self.count + u64::from(new.count_ones()) - u64::from(old.count_ones());
    }

    /// Takes a place out, if it is in the set.
    pub fn remove(&mut self, place: u32)
        ensures held { (q : ℕ) → holds self.new q ≡ (not (q == place) && holds self.old q) }
        ensures room { length self.new ≡ length self.old }
    {
        let block = place as usize / 64;
        if block < self.words.len() {
            let old = self.words[block];
            let bit = 1 << (place % 64);
            if old & bit != 0 {
                self.words[block] = old & !bit;
                self.count -= 1;
            }
        }
    }

    /// The first place of the set from a bound on, or `None` exactly where there is none.
    pub fn next(&self, from: u32) -> Option<u32>
        ensures next { IsNext (holds self.now) from result }
        ensures small { IfSome result (λ place. place < 65536) }
    {
        next_place(self.words.as_slice(), from)
    }
}

// The first place of the words from a bound on.
fn next_place(words: &[u64], from: u32) -> Option<u32>
    requires { length words.now ≤ 1024 }
    ensures { IsNext (holds words.now) from result }
{
    let first = from as usize / 64;
    if first >= words.len() {
        return None;
    }
    let rest = words[first] >> (from % 64);
    if rest != 0 {
        return Some(from + rest.trailing_zeros());
    }
    next_word(words, first + 1)
}

// The first place of the words from a block on.
fn next_word(words: &[u64], from: usize) -> Option<u32>
    requires { length words.now ≤ 1024 }
    ensures { IsNext (holds words.now) (64 * from) result }
{
    for block in from..words.len() {
        let word = words[block];
        if word != 0 {
            return Some(64 * block as u32 + word.trailing_zeros());
        }
    }
    None
}
