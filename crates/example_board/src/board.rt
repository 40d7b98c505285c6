//! The board and the rights of its slots, changed together.

ghost use Rattle.std.specs.Prelude.{◌≡◌, ◌<◌, [], length, IsTrue, OnOk, OnErr, MatchOption};
ghost use Rattle.std.specs.FinMap as maps;
ghost use Rattle.access_vectors.specs.Decisions.{Decisions};
ghost use Rattle.access_vectors.specs.Phases.{version_at, MayName};
ghost use Rattle.access_vectors.specs.Stale.{slot_place};
ghost use Rattle.access_vectors.specs.declared.phase.Phase.{Phase};
ghost use Rattle.retained_rights.specs.Rules.{Meets};
ghost use Rattle.retained_rights.specs.declared.rule.Rule.{Rule};
ghost use Rattle.example_board.specs.PlainManager.{IsOpening, opened_with, sid_of, with_slots, with_posted};
ghost use Rattle.example_board.specs.Boards.{Safe, IsUse, IsFree, state_of, follows};

use crate::opening::{BoardOpening, OPENING_NUMBER};
use access_vectors::{Asker, Class, Vector};
use flask_sid::{Memory, Sid};
use retained_rights::{Callback, Grants, Rule, Usable};
use std::alloc::Global;
use std::marker::Model;

/// The number of the object that every grant is on: there is one board.
const BOARD: u32 = 0;

/// The number on the board, and a grant for each used slot. Contracts see a value `BoardView`. A change of policy is made on the
/// grants themselves, and leaves what each is for.
#[derive(Drop)]
pub struct Board<F: Callback> {
    opening: BoardOpening,
    posted: u32,
    pub(crate) grants: Grants<F>,
}

impl<F: Callback> Model for Board<F> {
    ghost use Rattle.example_board.specs.Boards.{BoardView, IsInStep, view_code};

    ghost Value = { BoardView };

    ghost coded = { view_code };

    ghost view = { λ board. record { opening = board.opening; posted = board.posted; rights = board.grants } };

    ghost invariant = { λ board. IsInStep (record { opening = board.opening; posted = board.posted; rights = board.grants }) };
}

impl<F: Callback> Board<F> {
    /// The board of an opening, settled at policy number 0 with version 0. The callback meets the rule Each. It takes no
    /// memory.
    pub fn new(alloc: Global, opening: BoardOpening, callback: F) -> Board<F>
        requires { Meets F.may F.gives Rule.Each callback }
        ensures opening { result.opening ≡ opening }
        ensures state { state_of result ≡ opened_with opening }
        ensures follows { follows result ≡ maps.empty }
        ensures stale { result.rights.stale ≡ [] }
        ensures settled { result.rights.phase ≡ Phase.Settled 0 0 }
        ensures safe { (d : Decisions) → 0 < d.versions → IsOpening d opening → Safe d result }
    {
        Board {
            opening,
            posted: OPENING_NUMBER,
            grants: Grants::new(alloc, Rule::Each, Class::File, callback),
        }
    }

    /// The identifier of a client.
    pub fn sid(&self, client: u8) -> Sid
        requires { client < length self.now.opening.clients }
        ensures sid { result ≡ sid_of (state_of self.now) client }
        ensures known { (d : Decisions) → Safe d self.now → IsTrue (d.known result) }
    {
        self.opening.clients.as_slice()[usize::from(client)]
    }

    /// The board's label.
    pub fn label(&self) -> Sid
        ensures label { result ≡ self.now.opening.label }
        ensures known { (d : Decisions) → Safe d self.now → IsTrue (d.known result) }
    {
        self.opening.label
    }

    /// The number on the board.
    pub fn posted(&self) -> u32
        ensures { result ≡ self.now.posted }
    {
        self.posted
    }

    /// What a client's slot lets it do, or `None` exactly where the slot is free.
    pub fn slot_use(&self, client: u8, slot: u8) -> Option<Usable>
        ensures { MatchOption result (IsFree self.now client slot)
            (λ usable. (d : Decisions) → Safe d self.now → IsUse d self.now client slot usable) }
    {
        self.grants.usable(client, slot)
    }

    /// Puts another number on the board.
    pub fn set_posted(&mut self, posted: u32)
        ensures state { state_of self.new ≡ with_posted (state_of self.old) posted }
        ensures rights { self.new.rights ≡ self.old.rights }
        ensures safe { (d : Decisions) → Safe d self.old → Safe d self.new }
        ensures opening { self.new.opening ≡ self.old.opening }
    {
        self.posted = posted;
    }

    /// Fills a free slot of a client with this identifier, under a policy number whose version the asker has. After
    /// `Memory` all is as before.
    pub fn fill<A: Asker>(
        &mut self,
        client: u8,
        slot: u8,
        s: Sid,
        mode: Vector,
        number: u32,
        asker: &mut A,
    ) -> Result<(), Memory>
        requires safe { Safe (A.decides asker.old) self.old }
        requires free { IsFree self.old client slot }
        requires source { sid_of (state_of self.old) client ≡ s }
        requires known_source { IsTrue ((A.decides asker.old).known s) }
        requires named { MayName self.old.rights.phase number }
        requires version { A.version asker.old ≡ version_at self.old.rights.phase number }
        ensures state { OnOk result (state_of self.new
            ≡ with_slots (state_of self.old) (maps.insert (state_of self.old).slots (slot_place client slot) mode)) }
        ensures follows { OnOk result (follows self.new ≡ maps.insert (follows self.old) (slot_place client slot) number) }
        ensures as_before { OnErr result (self.new ≡ self.old) }
        ensures safe { Safe (A.decides asker.old) self.new }
        ensures opening { self.new.opening ≡ self.old.opening }
        ensures phase { self.new.rights.phase ≡ self.old.rights.phase }
        ensures keys { A.keys asker.new ≡ A.keys asker.old }
        ensures same { A.same asker.old asker.new }
        ensures decides { A.decides asker.new ≡ A.decides asker.old }
        ensures at_version { A.version asker.new ≡ A.version asker.old }
    {
        let t = self.opening.label;
        let vector = asker.vector_at(asker.version(), s, t, Class::File);
        let Ok(()) = self
            .grants
            .add(client, slot, BOARD, s, t, mode, number, vector, asker)
        else {
            return Err(Memory);
        };
        Ok(())
    }

    /// Frees a client's slot. It takes no memory.
    pub fn free(&mut self, client: u8, slot: u8)
        ensures state { state_of self.new
            ≡ with_slots (state_of self.old) (maps.remove (state_of self.old).slots (slot_place client slot)) }
        ensures follows { follows self.new ≡ maps.remove (follows self.old) (slot_place client slot) }
        ensures safe { (d : Decisions) → Safe d self.old → Safe d self.new }
        ensures opening { self.new.opening ≡ self.old.opening }
        ensures phase { self.new.rights.phase ≡ self.old.rights.phase }
    {
        let _held = self.grants.drop_slot(client, slot);
    }
}
