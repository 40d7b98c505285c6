//! The grants of slots with their indexes.

ghost use Rattle.std.specs.Prelude.{◌≡◌, ℕ, ◌<◌, ◌==◌, ◌&&◌, ◌||◌, not, true, false, None, Some, [], length, is_some, IfSome, OnOk, OnErr, if◌then◌else◌};
ghost use Rattle.std.specs.FinMap as maps;
ghost use Rattle.slot_tables.specs.Words.{holds, places, IsNext};
ghost use Rattle.slot_tables.specs.Rows.{has_row};
ghost use Rattle.retained_rights.specs.Rights.{is_on};
ghost use Rattle.retained_rights.specs.Stored;
ghost use Rattle.retained_rights.specs.Stored.{HaveRows, AreKnown, is_changed, rewritten};

use crate::fills::{fill, make_pair_rows, move_place, pair_name, set_stale};
use crate::grant::Grant;
use crate::marks::mark_rows;
use access_vectors::{Class, Decider, Vector};
use flask_sid::{Memory, Sid};
use slot_tables::{PlaceIndex, PlaceSet, Table};
use std::alloc::Global;
use std::marker::Model;

/// The grants of slots, found by slot, by object and by pair, and which of them are stale.
#[derive(Debug, Drop)]
pub(crate) struct Store {
    table: Table<Grant>,
    stale: PlaceSet,
    by_pair: PlaceIndex,
    by_object: PlaceIndex,
}

impl Model for Store {
    ghost use Rattle.std.specs.Prelude.{ℕ, List, refl};
    ghost use Rattle.std.specs.FinMap as maps;
    ghost use Rattle.std.specs.Ordering.{nat_cmp};
    ghost use Rattle.std.specs.Coded.{code_by, coded×, coded_list, coded_ℕ};
    ghost use Rattle.slot_tables.specs.Slots.{map_of};
    ghost use Rattle.retained_rights.specs.contracts.grant.Grant as grant_type;
    ghost use Rattle.retained_rights.specs.declared.grant.Grant.{Grant};
    ghost use Rattle.retained_rights.specs.Stored.{Stored, IsIndexed};

    ghost Value = { Stored };

    ghost coded = { code_by (maps.FinMap nat_cmp Grant × (List ℕ × List (ℕ × ℕ)))
        (coded× (maps.code coded_ℕ grant_type.the_row.coded) (coded× (coded_list coded_ℕ) (coded_list (coded× coded_ℕ coded_ℕ))))
        (λ v. (v.held, (v.words, v.pairs))) (λ p. record { held = p.0; words = p.1.0; pairs = p.1.1 }) (λ _. refl) };

    ghost view = { λ store. record { held = map_of store.table; words = store.stale; pairs = store.by_pair } };

    ghost invariant = { λ store. IsIndexed (map_of store.table) store.stale store.by_pair store.by_object };
}

impl Store {
    /// No grant, which takes no memory yet.
    pub(crate) fn new(alloc: Global) -> Store
        ensures { result ≡ record { held = maps.empty; words = []; pairs = [] } }
    {
        Store {
            table: Table::new(alloc),
            stale: PlaceSet::new(alloc),
            by_pair: PlaceIndex::new(alloc),
            by_object: PlaceIndex::new(alloc),
        }
    }

    /// The grant of a slot, if it holds one.
    pub(crate) fn get(&self, place: u32) -> Option<Grant>
        ensures { result ≡ maps.get self.now.held place }
    {
        self.table.get(place)
    }

    /// How many slots are stale.
    pub(crate) fn left(&self) -> u64
        ensures { result ≡ length (places self.now.words) }
    {
        self.stale.len()
    }

    /// The first stale slot from a bound on, or `None` exactly where there is none.
    pub(crate) fn next_stale(&self, from: u32) -> Option<u32>
        ensures next { IsNext (holds self.now.words) from result }
        ensures small { IfSome result (λ place. place < 65536) }
    {
        self.stale.next(from)
    }

    /// The first slot from a bound on that holds the object, or `None` exactly where there is none.
    pub(crate) fn next_on(&self, object: u32, from: u32) -> Option<u32>
        ensures next { IsNext (λ place. is_on object (maps.get self.now.held place)) from result }
        ensures small { IfSome result (λ place. place < 65536) }
    {
        self.by_object.next(object, from)
    }

    /// Frees a slot, and answers whether it held a grant.
    pub(crate) fn free(&mut self, place: u32) -> bool
        ensures used { result ≡ is_some (maps.get self.old.held place) }
        ensures held { self.new.held ≡ maps.remove self.old.held place }
        ensures stale { (q : ℕ) → holds self.new.words q ≡ (not (q == place) && holds self.old.words q) }
    {
        self.stale.remove(place);
        let Some(grant) = self.table.get(place) else {
            return false;
        };
        self.table.clear(place);
        self.by_pair.remove(pair_name(grant.s, grant.t), place);
        self.by_object.remove(grant.object, place);
        true
    }

    /// Gives a stale slot other bits under a number, after which it is not stale.
    pub(crate) fn refresh(&mut self, place: u32, was: Grant, bits: Vector, number: u32)
        requires { maps.get self.old.held place ≡ Some was }
        ensures held { self.new.held ≡ maps.insert self.old.held place (rewritten was was.t bits number) }
        ensures stale { (q : ℕ) → holds self.new.words q ≡ (not (q == place) && holds self.old.words q) }
    {
        self.table.set(
            place,
            Grant {
                bits,
                number,
                ..was
            },
        );
        self.stale.remove(place);
    }

    /// Fills a free slot. After `Memory` all is as before.
    pub(crate) fn put(&mut self, place: u32, grant: Grant, stale: bool) -> Result<(), Memory>
        requires small { place < 65536 }
        requires free { maps.get self.old.held place ≡ None }
        ensures held { OnOk result (self.new.held ≡ maps.insert self.old.held place grant) }
        ensures stale { OnOk result ((q : ℕ) → holds self.new.words q ≡ ((stale && q == place) || holds self.old.words q)) }
        ensures as_before { OnErr result (self.new.held ≡ self.old.held) }
        ensures none_stale { OnErr result ((q : ℕ) → holds self.new.words q ≡ holds self.old.words q) }
    {
        fill(
            &mut self.table,
            &mut self.stale,
            &mut self.by_pair,
            &mut self.by_object,
            place,
            grant,
            stale,
        )
    }

    /// Makes the rows that the slots of an object need for another label. All is as before, also after `Memory`.
    pub(crate) fn make_pairs(&mut self, object: u32, t: Sid) -> Result<(), Memory>
        ensures held { self.new.held ≡ self.old.held }
        ensures words { self.new.words ≡ self.old.words }
        ensures rows { OnOk result (HaveRows self.new.held self.new.pairs object t) }
    {
        make_pair_rows(&self.table, &self.by_object, &mut self.by_pair, object, t)
    }

    /// Gives a slot's grant another label, for which it has a row, with bits under a number, and says whether it is stale.
    pub(crate) fn replace(
        &mut self,
        place: u32,
        was: Grant,
        t: Sid,
        bits: Vector,
        number: u32,
        is_stale: bool,
    )
        requires used { maps.get self.old.held place ≡ Some was }
        requires row { has_row self.old.pairs (Stored.pair_name was.s t) place ≡ true }
        ensures held { self.new.held ≡ maps.insert self.old.held place (rewritten was t bits number) }
        ensures stale { (q : ℕ) → holds self.new.words q ≡ (if q == place then is_stale else holds self.old.words q) }
        ensures rows { (n q : ℕ) → q < 65536 → (n ≡ Stored.pair_name was.s was.t → n ≡ Stored.pair_name was.s t)
            → has_row self.old.pairs n q ≡ true → has_row self.new.pairs n q ≡ true }
    {
        let Grant { s, t: before, .. } = was;
        move_place(
            &mut self.by_pair,
            pair_name(s, before),
            pair_name(s, t),
            place,
        );
        self.table.set(
            place,
            Grant {
                t,
                bits,
                number,
                ..was
            },
        );
        set_stale(&mut self.stale, place, is_stale);
    }

    /// Lists the slots whose pairs have other vectors in a version than in another, where none is listed. Each distinct pair
    /// is asked about once.
    pub(crate) fn mark<D: Decider>(&mut self, decider: &D, class: Class, old: u8, new: u8)
        requires old_version { old < (D.decides decider.now).versions }
        requires new_version { new < (D.decides decider.now).versions }
        requires known { AreKnown (D.decides decider.now) self.old.held }
        requires none { (q : ℕ) → holds self.old.words q ≡ false }
        ensures held { self.new.held ≡ self.old.held }
        ensures stale { (q : ℕ) → holds self.new.words q ≡ is_changed (D.decides decider.now) class old new (maps.get self.old.held q) }
    {
        mark_rows(
            decider,
            class,
            old,
            new,
            &self.table,
            &self.by_pair,
            &mut self.stale,
        );
    }
}
