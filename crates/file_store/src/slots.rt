//! Slots: what they let their clients do, and how they are filled and freed.

ghost use Rattle.std.specs.Prelude.{◌≡◌, IsTrue, IfSome, OnOk, OnErr, MatchOption};
ghost use Rattle.std.specs.FinMap as maps;
ghost use Rattle.access_vectors.specs.Decisions.{Decisions};
ghost use Rattle.access_vectors.specs.Phases.{version_at, MayName};
ghost use Rattle.access_vectors.specs.Stale.{slot_place};
ghost use Rattle.file_tree.specs.Nodes.{path_in};
ghost use Rattle.file_calls.specs.SlotCalls.{filled};
ghost use Rattle.file_calls.specs.States.{sid_of, with_slots};
ghost use Rattle.file_store.specs.Stores.{IsFileOf, Safe, state_of, follows};
ghost use Rattle.file_store.specs.Uses.{HasBytes, IsFree, IsUse};

use crate::files::Files;
use crate::filling::Filling;
use access_vectors::{Asker, Class};
use flask_sid::Memory;
use retained_rights::{Callback, Usable};

impl<F: Callback> Files<F> {
    /// What a client's slot lets it do, or `None` exactly where the slot is free.
    pub fn slot_use(&self, client: u8, slot: u8) -> Option<Usable>
        ensures { MatchOption result (IsFree self.now client slot)
            (λ usable. (d : Decisions) → Safe d self.now → IsUse d self.now client slot usable) }
    {
        self.grants.usable(client, slot)
    }

    /// What a client's slot holds, or `None` exactly where the slot is free: what it lets the client do, and the bytes of its
    /// file.
    #[inline(always)]
    pub fn held(&self, client: u8, slot: u8) -> Option<(Usable, &[u8])>
        ensures told { MatchOption result (IsFree self.now client slot)
            (λ held. (d : Decisions) → Safe d self.now → IsUse d self.now client slot held.0) }
        ensures bytes { IfSome result (λ held. HasBytes self.now held.0.object held.1.now) }
    {
        let usable = self.grants.usable(client, slot)?;
        let node = self.tree.node(usable.object).unwrap();
        let bytes = node.bytes.as_ref().unwrap();
        Some((usable, bytes.as_bytes()))
    }

    /// Fills a client's free slot, under a policy number whose version the asker has. After `Memory` all is as before.
    pub fn fill<A: Asker>(
        &mut self,
        client: u8,
        slot: u8,
        filling: Filling,
        asker: &mut A,
    ) -> Result<(), Memory>
        requires safe { Safe (A.decides asker.old) self.old }
        requires free { IsFree self.old client slot }
        requires source { sid_of (state_of self.old) client ≡ filling.s }
        requires known_source { IsTrue ((A.decides asker.old).known filling.s) }
        requires target { IsFileOf self.old.nodes filling.object filling.t }
        requires named { MayName self.old.rights.phase filling.number }
        requires version { A.version asker.old ≡ version_at self.old.rights.phase filling.number }
        ensures state { OnOk result (state_of self.new
            ≡ (filled (state_of self.old) (slot_place client slot) (path_in self.old.nodes filling.object) filling.mode).state) }
        ensures follows { OnOk result (follows self.new
            ≡ maps.insert (follows self.old) (slot_place client slot) filling.number) }
        ensures as_before { OnErr result (self.new ≡ self.old) }
        ensures safe { Safe (A.decides asker.old) self.new }
        ensures opening { self.new.opening ≡ self.old.opening }
        ensures phase { self.new.rights.phase ≡ self.old.rights.phase }
        ensures keys { A.keys asker.new ≡ A.keys asker.old }
        ensures same { A.same asker.old asker.new }
        ensures decides { A.decides asker.new ≡ A.decides asker.old }
        ensures at_version { A.version asker.new ≡ A.version asker.old }
    {
        let vector = asker.vector_at(asker.version(), filling.s, filling.t, Class::File);
        let Ok(()) = self.grants.add(
            client,
            slot,
            filling.object,
            filling.s,
            filling.t,
            filling.mode,
            filling.number,
            vector,
            asker,
        )
        else {
            return Err(Memory);
        };
        Ok(())
    }

    /// Frees a client's slot. It takes no memory.
    pub fn free(&mut self, client: u8, slot: u8)
        ensures state { state_of self.new
            ≡ with_slots (state_of self.old) (maps.remove (state_of self.old).slots (slot_place client slot)) }
        ensures follows { follows self.new ≡ maps.remove (follows self.old) (slot_place client slot) }
        ensures safe { (d : Decisions) → Safe d self.old → Safe d self.new }
        ensures opening { self.new.opening ≡ self.old.opening }
        ensures phase { self.new.rights.phase ≡ self.old.rights.phase }
    {
        let _held = self.grants.drop_slot(client, slot);
    }
}
