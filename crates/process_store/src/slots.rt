//! Slots: what they let their clients do, and how they are attached and freed.

ghost use Rattle.std.specs.Prelude.{◌≡◌, IsTrue, OnOk, OnErr, MatchOption};
ghost use Rattle.std.specs.FinMap as maps;
ghost use Rattle.access_vectors.specs.Decisions.{Decisions};
ghost use Rattle.access_vectors.specs.Phases.{version_at, MayName};
ghost use Rattle.access_vectors.specs.Stale.{slot_place};
ghost use Rattle.process_calls.specs.States.{sid_of, with_slots};
ghost use Rattle.process_store.specs.Stores.{IsProcessOf, Safe, state_of, follows};
ghost use Rattle.process_store.specs.Uses.{IsFree, IsUse};

use crate::attachment::Attachment;
use crate::processes::Processes;
use access_vectors::{Asker, Class, Vector};
use flask_sid::Memory;
use retained_rights::{Callback, Usable};

/// The mode of every attached slot: ptrace at bit 3, and getattr at bit 6.
const ATTACH_MODE: u16 = 72;

impl<F: Callback> Processes<F> {
    /// What a client's slot lets it do, or `None` exactly where the slot is free.
    pub fn slot_use(&self, client: u8, slot: u8) -> Option<Usable>
        ensures { MatchOption result (IsFree self.now client slot)
            (λ usable. (d : Decisions) → Safe d self.now → IsUse d self.now client slot usable) }
    {
        self.grants.usable(client, slot)
    }

    /// Attaches a client's free slot to a process, under a policy number whose version the asker has. After `Memory` all is
    /// as before.
    pub fn attach<A: Asker>(
        &mut self,
        client: u8,
        slot: u8,
        attachment: Attachment,
        asker: &mut A,
    ) -> Result<(), Memory>
        requires safe { Safe (A.decides asker.old) self.old }
        requires free { IsFree self.old client slot }
        requires source { sid_of (state_of self.old) client ≡ attachment.s }
        requires known_source { IsTrue ((A.decides asker.old).known attachment.s) }
        requires target { IsProcessOf self.old.processes attachment.pid attachment.t }
        requires named { MayName self.old.rights.phase attachment.number }
        requires version { A.version asker.old ≡ version_at self.old.rights.phase attachment.number }
        ensures state { OnOk result (state_of self.new
            ≡ with_slots (state_of self.old) (maps.insert (state_of self.old).slots (slot_place client slot) attachment.pid)) }
        ensures follows { OnOk result (follows self.new
            ≡ maps.insert (follows self.old) (slot_place client slot) attachment.number) }
        ensures as_before { OnErr result (self.new ≡ self.old) }
        ensures safe { Safe (A.decides asker.old) self.new }
        ensures opening { self.new.opening ≡ self.old.opening }
        ensures phase { self.new.rights.phase ≡ self.old.rights.phase }
        ensures keys { A.keys asker.new ≡ A.keys asker.old }
        ensures same { A.same asker.old asker.new }
        ensures decides { A.decides asker.new ≡ A.decides asker.old }
        ensures at_version { A.version asker.new ≡ A.version asker.old }
    {
        let vector = asker.vector_at(asker.version(), attachment.s, attachment.t, Class::Process);
        let Ok(()) = self.grants.add(
            client,
            slot,
            attachment.pid,
            attachment.s,
            attachment.t,
            Vector::of(ATTACH_MODE),
            attachment.number,
            vector,
            asker,
        )
        else {
            return Err(Memory);
        };
        Ok(())
    }

    /// Frees a client's slot. It takes no memory.
    pub fn free(&mut self, client: u8, slot: u8)
        ensures state { state_of self.new
            ≡ with_slots (state_of self.old) (maps.remove (state_of self.old).slots (slot_place client slot)) }
        ensures follows { follows self.new ≡ maps.remove (follows self.old) (slot_place client slot) }
        ensures safe { (d : Decisions) → Safe d self.old → Safe d self.new }
        ensures opening { self.new.opening ≡ self.old.opening }
        ensures phase { self.new.rights.phase ≡ self.old.rights.phase }
    {
        let _held = self.grants.drop_slot(client, slot);
    }
}
