//! The rights of one manager's slots: how they are granted, used, given back and moved, and how a change of policy revises
//! them.

ghost use Rattle.std.specs.Prelude.{◌≡◌, ◌+◌, ◌-◌, ◌<◌, ◌≤◌, true, min, length, take, drop, None, is_some, IsTrue, IfOk, IfErr, OnOk, OnErr, MatchOption};
ghost use Rattle.std.specs.Option.{option_map};
ghost use Rattle.std.specs.FinMap as maps;
ghost use Rattle.access_vectors.specs.Decisions.{Decisions};
ghost use Rattle.access_vectors.specs.Phases.{number_of, version_at, MayName, is_pending, acknowledged};
ghost use Rattle.access_vectors.specs.Stale.{slot_place, now_following, all_following};
ghost use Rattle.access_vectors.specs.declared.phase.Phase.{Phase};
ghost use Rattle.retained_rights.specs.Rules.{Meets};
ghost use Rattle.retained_rights.specs.Rights.{Fit, follows_of, no_rights, usable_of, add_fault, IsRefusal, bits_under, without_object, all_moved, all_revised};
ghost use Rattle.retained_rights.specs.Claims.{claims_of, not_for, all_relabelled, following_for, IsUseOf, IsUnused};

use crate::grant::{AddFault, Grant, Usable};
use crate::rule::{Callback, Rule};
use crate::ruled::Ruled;
use crate::slots;
use crate::store::Store;
use access_vectors::{Asker, Class, Decider, Phase, Steps, Vector};
use flask_sid::{Memory, Sid};
use std::alloc::Global;
use std::marker::Model;
use std::sync::ledger::Ledger;

/// The place of a client's slot among all slots, in the order of clients and then of slots.
pub fn place_of(client: u8, slot: u8) -> u32
    ensures { result ≡ slot_place client slot }
{
    256 * u32::from(client) + u32::from(slot)
}

/// The rights that a manager's slots hold, each with the usable bits of its mode, and which of them are stale while a policy
/// change is pending. Contracts see a record `Rights`.
#[derive(Debug, Drop)]
pub struct Grants<F: Callback> {
    ruled: Ruled<F>,
    class: Class,
    phase: Phase,
    store: Store,
}

impl<F: Callback> Model for Grants<F> {
    ghost use Rattle.slot_tables.specs.Words.{places};
    ghost use Rattle.retained_rights.specs.Rights.{Rights, rights_code};
    ghost use Rattle.retained_rights.specs.Stored.{AreNumbered};

    ghost Value = { Rights };

    ghost coded = { rights_code };

    ghost view = { λ grants. record { rule = grants.ruled; class = grants.class; phase = grants.phase; held = grants.store.held; stale = places grants.store.words } };

    ghost invariant = { λ grants. AreNumbered grants.phase grants.store.held };
}

impl<F: Callback> Grants<F> {
    /// No grant, settled at number 0 with version 0. It takes no memory.
    pub fn new(alloc: Global, rule: Rule, class: Class, callback: F) -> Grants<F>
        requires { Meets F.may F.gives rule callback }
        ensures { result ≡ no_rights rule class }
    {
        Grants {
            ruled: Ruled::new(rule, callback),
            class,
            phase: Phase::Settled {
                number: 0,
                version: 0,
            },
            store: Store::new(alloc),
        }
    }

    /// Puts a grant into a client's free slot. `number` is a policy number that may be named now, whose version the asker
    /// has, and `v` the vector of that version on the pair. A grant of the older number joins the stale ones where the two
    /// versions differ on its pair. `SlotUsed` exactly where the slot holds a grant. After a refusal all is as before.
    pub fn add<A: Asker>(
        &mut self,
        client: u8,
        slot: u8,
        object: u32,
        s: Sid,
        t: Sid,
        mode: Vector,
        number: u32,
        v: Vector,
        asker: &mut A,
    ) -> Result<(), AddFault>
        requires fit { Fit (A.decides asker.old) self.old }
        requires source { IsTrue ((A.decides asker.old).known s) }
        requires target { IsTrue ((A.decides asker.old).known t) }
        requires named { MayName self.old.phase number }
        requires version { A.version asker.old ≡ version_at self.old.phase number }
        requires vector { v ≡ (A.decides asker.old).vector (A.version asker.old) s t self.old.class }
        ensures refusals { IfErr result (IsRefusal (add_fault (maps.get self.old.held (slot_place client slot)))) }
        ensures allowed { OnOk result (add_fault (maps.get self.old.held (slot_place client slot)) ≡ None) }
        ensures held { OnOk result (self.new.held ≡ maps.insert self.old.held (slot_place client slot) (record {
          object = object;
          s = s;
          t = t;
          mode = mode;
          bits = bits_under (A.decides asker.old) self.old.rule self.old.class (A.version asker.old) s t mode;
          number = number;
        })) }
        ensures claims { OnOk result (claims_of self.new
            ≡ maps.insert (claims_of self.old) (slot_place client slot) (record { object = object; mode = mode; s = s; t = t })) }
        ensures follows { OnOk result (follows_of self.new ≡ maps.insert (follows_of self.old) (slot_place client slot) number) }
        ensures as_before { OnErr result (self.new ≡ self.old) }
        ensures fit { Fit (A.decides asker.old) self.new }
        ensures rule { self.new.rule ≡ self.old.rule }
        ensures class { self.new.class ≡ self.old.class }
        ensures phase { self.new.phase ≡ self.old.phase }
        ensures keys { A.keys asker.new ≡ A.keys asker.old }
        ensures same { A.same asker.old asker.new }
        ensures decides { A.decides asker.new ≡ A.decides asker.old }
        ensures at_version { A.version asker.new ≡ A.version asker.old }
    {
        let place = place_of(client, slot);
        if self.store.get(place).is_some() {
            return Err(AddFault::SlotUsed);
        }
        let bits = self.ruled.bits(mode, v);
        let is_stale = slots::becomes_stale(self.phase, self.class, s, t, number, v, asker);
        let grant = Grant {
            object,
            s,
            t,
            mode,
            bits,
            number,
        };
        let Ok(()) = self.store.put(place, grant, is_stale) else {
            return Err(AddFault::Memory);
        };
        Ok(())
    }

    /// What a client's slot lets it do, or `None` exactly where it holds no grant.
    pub fn usable(&self, client: u8, slot: u8) -> Option<Usable>
        ensures is { result ≡ option_map (usable_of self.now.phase) (maps.get self.now.held (slot_place client slot)) }
        ensures told { MatchOption result (IsUnused self.now (slot_place client slot))
            (λ usable. (d : Decisions) → Fit d self.now → IsUseOf d self.now (slot_place client slot) usable) }
    {
        let grant = self.store.get(place_of(client, slot))?;
        let Grant {
            object,
            s,
            t,
            mode,
            bits,
            number,
        } = grant;
        let number = slots::followed(self.phase, number);
        Some(Usable {
            object,
            s,
            t,
            mode,
            bits,
            number,
        })
    }

    /// Frees a client's slot, and answers whether it held a grant. It takes no memory.
    pub fn drop_slot(&mut self, client: u8, slot: u8) -> bool
        ensures held_one { result ≡ is_some (maps.get self.old.held (slot_place client slot)) }
        ensures held { self.new.held ≡ maps.remove self.old.held (slot_place client slot) }
        ensures claims { claims_of self.new ≡ maps.remove (claims_of self.old) (slot_place client slot) }
        ensures follows { follows_of self.new ≡ maps.remove (follows_of self.old) (slot_place client slot) }
        ensures fit { (d : Decisions) → Fit d self.old → Fit d self.new }
        ensures rule { self.new.rule ≡ self.old.rule }
        ensures class { self.new.class ≡ self.old.class }
        ensures phase { self.new.phase ≡ self.old.phase }
    {
        self.store.free(place_of(client, slot))
    }

    /// Frees every slot that holds the object. It takes no memory.
    pub fn drop_object(&mut self, object: u32)
        ensures held { self.new.held ≡ without_object object self.old.held }
        ensures claims { claims_of self.new ≡ not_for object (claims_of self.old) (claims_of self.old) }
        ensures follows { follows_of self.new ≡ not_for object (claims_of self.old) (follows_of self.old) }
        ensures fit { (d : Decisions) → Fit d self.old → Fit d self.new }
        ensures rule { self.new.rule ≡ self.old.rule }
        ensures class { self.new.class ≡ self.old.class }
        ensures phase { self.new.phase ≡ self.old.phase }
    {
        slots::drop_all(&mut self.store, object);
    }

    /// Moves every grant on the object to the pair with `t`, and gets its bits anew from its mode under the number, also
    /// where the label stays. The conditions on number and asker are those of `add`. After `Memory` all is as before.
    pub fn relabel<A: Asker>(
        &mut self,
        object: u32,
        t: Sid,
        number: u32,
        asker: &mut A,
    ) -> Result<(), Memory>
        requires fit { Fit (A.decides asker.old) self.old }
        requires target { IsTrue ((A.decides asker.old).known t) }
        requires named { MayName self.old.phase number }
        requires version { A.version asker.old ≡ version_at self.old.phase number }
        ensures held { OnOk result (self.new.held
            ≡ all_moved (A.decides asker.old) self.old.rule self.old.class (A.version asker.old) object t number self.old.held) }
        ensures claims { OnOk result (claims_of self.new ≡ all_relabelled object t (claims_of self.old)) }
        ensures follows { OnOk result (follows_of self.new ≡ following_for object number (claims_of self.old) (follows_of self.old)) }
        ensures as_before { OnErr result (self.new ≡ self.old) }
        ensures fit { Fit (A.decides asker.old) self.new }
        ensures rule { self.new.rule ≡ self.old.rule }
        ensures class { self.new.class ≡ self.old.class }
        ensures phase { self.new.phase ≡ self.old.phase }
        ensures keys { A.keys asker.new ≡ A.keys asker.old }
        ensures same { A.same asker.old asker.new }
        ensures decides { A.decides asker.new ≡ A.decides asker.old }
        ensures at_version { A.version asker.new ≡ A.version asker.old }
    {
        self.store.make_pairs(object, t)?;
        slots::move_all(
            &mut self.store,
            &self.ruled,
            self.phase,
            self.class,
            object,
            t,
            number,
            asker,
        );
        Ok(())
    }

    /// Begins a change: from the settled number with version `old` to `number`, the next one, with version `new`. Answers
    /// how many slots are stale. Each distinct pair is asked about once. After `Memory` all is as before.
    pub fn start<D: Decider>(
        &mut self,
        decider: &D,
        number: u32,
        old: u8,
        new: u8,
    ) -> Result<u64, Memory>
        requires fit { Fit (D.decides decider.now) self.old }
        requires next { 0 < number }
        requires settled { self.old.phase ≡ Phase.Settled (number - 1) old }
        requires old_version { old < (D.decides decider.now).versions }
        requires new_version { new < (D.decides decider.now).versions }
        ensures found { IfOk result (λ found. found ≡ length self.new.stale) }
        ensures pending { OnOk result (self.new.phase ≡ Phase.Pending number old new) }
        ensures as_before { OnErr result (self.new ≡ self.old) }
        ensures held { self.new.held ≡ self.old.held }
        ensures claims { claims_of self.new ≡ claims_of self.old }
        ensures follows { follows_of self.new ≡ follows_of self.old }
        ensures fit { Fit (D.decides decider.now) self.new }
        ensures rule { self.new.rule ≡ self.old.rule }
        ensures class { self.new.class ≡ self.old.class }
    {
        self.store.mark(decider, self.class, old, new);
        self.phase = Phase::Pending { number, old, new };
        Ok(self.store.left())
    }

    /// Lets the first `k` stale slots, or all where they are fewer, follow the pending number: the bits of each are got
    /// anew from its mode, so it may become usable again. One tick of `steps` for each of them. Answers how many are left.
    /// It takes no memory.
    pub fn revise<D: Decider, L: Ledger>(
        &mut self,
        decider: &D,
        k: u64,
        steps: &mut Steps<L>,
    ) -> u64
        requires fit { Fit (D.decides decider.now) self.old }
        requires pending { is_pending self.old.phase ≡ true }
        ensures left { result ≡ length self.new.stale }
        ensures stale { self.new.stale ≡ drop k self.old.stale }
        ensures held { let number = number_of self.old.phase in self.new.held
            ≡ all_revised (D.decides decider.now) self.old.rule self.old.class (version_at self.old.phase number) number
            (take k self.old.stale) self.old.held }
        ensures claims { claims_of self.new ≡ claims_of self.old }
        ensures follows { follows_of self.new
            ≡ now_following (take k self.old.stale) (number_of self.old.phase) (follows_of self.old) }
        ensures cost { steps.new ≡ steps.old + min k (length self.old.stale) }
        ensures fit { Fit (D.decides decider.now) self.new }
        ensures rule { self.new.rule ≡ self.old.rule }
        ensures class { self.new.class ≡ self.old.class }
        ensures phase { self.new.phase ≡ self.old.phase }
    {
        slots::revise_first(
            &mut self.store,
            &self.ruled,
            self.phase,
            self.class,
            decider,
            k,
            steps,
        );
        self.store.left()
    }

    /// How many slots are stale.
    pub fn left(&self) -> u64
        ensures { result ≡ length self.now.stale }
    {
        self.store.left()
    }

    /// Ends the pending change, after which every used slot follows its number. It takes no memory.
    pub fn settle(&mut self)
        requires pending { is_pending self.old.phase ≡ true }
        requires revised { length self.old.stale ≡ 0 }
        ensures phase { self.new.phase ≡ acknowledged self.old.phase }
        ensures held { self.new.held ≡ self.old.held }
        ensures claims { claims_of self.new ≡ claims_of self.old }
        ensures follows { follows_of self.new ≡ all_following (number_of self.old.phase) (follows_of self.old) }
        ensures fit { (d : Decisions) → Fit d self.old → Fit d self.new }
        ensures rule { self.new.rule ≡ self.old.rule }
        ensures class { self.new.class ≡ self.old.class }
    {
        if let Phase::Pending { number, new, .. } = self.phase {
            self.phase = Phase::Settled {
                number,
                version: new,
            };
        }
    }
}
