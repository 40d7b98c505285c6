//! Slots: what they let their clients do, and how they are filled and freed.

ghost use Rattle.std.specs.Prelude.{◌≡◌, true, is_some, IsTrue, OnOk, OnErr, MatchOption};
ghost use Rattle.std.specs.FinMap as maps;
ghost use Rattle.access_vectors.specs.Decisions.{Decisions};
ghost use Rattle.access_vectors.specs.Phases.{version_at, MayName};
ghost use Rattle.access_vectors.specs.Stale.{slot_place};
ghost use Rattle.port_calls.specs.Rows.{freed};
ghost use Rattle.port_calls.specs.States.{label_of, sid_of, with_slot};
ghost use Rattle.port_store.specs.Stores.{IsMode, Safe, state_of, follows};
ghost use Rattle.port_store.specs.Uses.{IsFree, IsUse};

use crate::filling::Filling;
use crate::ports::Ports;
use access_vectors::{Asker, Class};
use flask_sid::Memory;
use retained_rights::{Callback, Usable};

impl<F: Callback> Ports<F> {
    /// What a client's slot lets it do, or `None` exactly where the slot is free.
    pub fn slot_use(&self, client: u8, slot: u8) -> Option<Usable>
        ensures { MatchOption result (IsFree self.now client slot)
            (λ usable. (d : Decisions) → Safe d self.now → IsUse d self.now client slot usable) }
    {
        self.grants.usable(client, slot)
    }

    /// Fills a client's free slot with a bound port, under a policy number whose version the asker has. After `Memory` all
    /// is as before.
    pub fn connect<A: Asker>(
        &mut self,
        client: u8,
        slot: u8,
        filling: Filling,
        asker: &mut A,
    ) -> Result<(), Memory>
        requires safe { Safe (A.decides asker.old) self.old }
        requires free { IsFree self.old client slot }
        requires source { sid_of (state_of self.old) client ≡ filling.s }
        requires known_source { IsTrue ((A.decides asker.old).known filling.s) }
        requires bound { is_some (maps.get self.old.ports filling.port) ≡ true }
        requires target { label_of self.old.opening filling.port ≡ filling.t }
        requires mode { IsMode filling.mode }
        requires named { MayName self.old.rights.phase filling.number }
        requires version { A.version asker.old ≡ version_at self.old.rights.phase filling.number }
        ensures state { OnOk result (state_of self.new
            ≡ with_slot (state_of self.old) (slot_place client slot) (record { port = filling.port; mode = filling.mode })) }
        ensures follows { OnOk result (follows self.new
            ≡ maps.insert (follows self.old) (slot_place client slot) filling.number) }
        ensures as_before { OnErr result (self.new ≡ self.old) }
        ensures safe { Safe (A.decides asker.old) self.new }
        ensures opening { self.new.opening ≡ self.old.opening }
        ensures phase { self.new.rights.phase ≡ self.old.rights.phase }
        ensures keys { A.keys asker.new ≡ A.keys asker.old }
        ensures same { A.same asker.old asker.new }
        ensures decides { A.decides asker.new ≡ A.decides asker.old }
        ensures at_version { A.version asker.new ≡ A.version asker.old }
    {
        let vector = asker.vector_at(asker.version(), filling.s, filling.t, Class::Port);
        let Ok(()) = self.grants.add(
            client,
            slot,
            filling.port,
            filling.s,
            filling.t,
            filling.mode,
            filling.number,
            vector,
            asker,
        )
        else {
            return Err(Memory);
        };
        Ok(())
    }

    /// Frees a client's slot. It takes no memory.
    pub fn free(&mut self, client: u8, slot: u8)
        ensures state { state_of self.new ≡ freed (state_of self.old) (slot_place client slot) }
        ensures follows { follows self.new ≡ maps.remove (follows self.old) (slot_place client slot) }
        ensures safe { (d : Decisions) → Safe d self.old → Safe d self.new }
        ensures opening { self.new.opening ≡ self.old.opening }
        ensures phase { self.new.rights.phase ≡ self.old.rights.phase }
    {
        let _held = self.grants.drop_slot(client, slot);
    }
}
