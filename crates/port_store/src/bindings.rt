//! How ports are bound, each with the slot that binds it, and unbound.

ghost use Rattle.std.specs.Prelude.{◌≡◌, None, IsTrue, OnOk, OnErr};
ghost use Rattle.std.specs.FinMap as maps;
ghost use Rattle.access_vectors.specs.Decisions.{Decisions};
ghost use Rattle.access_vectors.specs.Phases.{version_at, MayName};
ghost use Rattle.access_vectors.specs.Stale.{slot_place};
ghost use Rattle.port_calls.specs.PlainManager.{follows_without};
ghost use Rattle.port_calls.specs.Rows.{bound_by, unbound};
ghost use Rattle.port_calls.specs.States.{label_of, sid_of};
ghost use Rattle.port_store.specs.Stores.{IsMode, Safe, state_of, follows};
ghost use Rattle.port_store.specs.Uses.{IsFree};

use crate::filling::Filling;
use crate::ports::Ports;
use crate::queue::Queue;
use crate::table;
use access_vectors::{Asker, Class};
use flask_sid::Memory;
use retained_rights::Callback;
use std::alloc::Global;

impl<F: Callback> Ports<F> {
    /// Binds a port to a client through a free slot of it, under a policy number whose version the asker has. No message
    /// waits there. After `Memory` all is as before.
    pub fn bind<A: Asker>(
        &mut self,
        alloc: Global,
        client: u8,
        slot: u8,
        filling: Filling,
        asker: &mut A,
    ) -> Result<(), Memory>
        requires safe { Safe (A.decides asker.old) self.old }
        requires free { IsFree self.old client slot }
        requires source { sid_of (state_of self.old) client ≡ filling.s }
        requires known_source { IsTrue ((A.decides asker.old).known filling.s) }
        requires unbound { maps.get self.old.ports filling.port ≡ None }
        requires target { label_of self.old.opening filling.port ≡ filling.t }
        requires mode { IsMode filling.mode }
        requires named { MayName self.old.rights.phase filling.number }
        requires version { A.version asker.old ≡ version_at self.old.rights.phase filling.number }
        ensures state { OnOk result (state_of self.new
            ≡ bound_by (state_of self.old) client (slot_place client slot) filling.port filling.mode) }
        ensures follows { OnOk result (follows self.new
            ≡ maps.insert (follows self.old) (slot_place client slot) filling.number) }
        ensures as_before { OnErr result (self.new ≡ self.old) }
        ensures safe { Safe (A.decides asker.old) self.new }
        ensures opening { self.new.opening ≡ self.old.opening }
        ensures phase { self.new.rights.phase ≡ self.old.rights.phase }
        ensures keys { A.keys asker.new ≡ A.keys asker.old }
        ensures same { A.same asker.old asker.new }
        ensures decides { A.decides asker.new ≡ A.decides asker.old }
        ensures at_version { A.version asker.new ≡ A.version asker.old }
    {
        let queue = Queue::new(alloc, client)?;
        table::make_room(&mut self.table, filling.port)?;
        let vector = asker.vector_at(asker.version(), filling.s, filling.t, Class::Port);
        let Ok(()) = self.grants.add(
            client,
            slot,
            filling.port,
            filling.s,
            filling.t,
            filling.mode,
            filling.number,
            vector,
            asker,
        )
        else {
            return Err(Memory);
        };
        table::put(&mut self.table, filling.port, queue);
        Ok(())
    }

    /// A port is not bound any more: its messages are gone, and every slot on it is free. It takes no memory.
    pub fn unbind(&mut self, port: u32)
        ensures state { state_of self.new ≡ unbound (state_of self.old) port }
        ensures follows { follows self.new ≡ follows_without (state_of self.old) port (follows self.old) }
        ensures safe { (d : Decisions) → Safe d self.old → Safe d self.new }
        ensures opening { self.new.opening ≡ self.old.opening }
        ensures phase { self.new.rights.phase ≡ self.old.rights.phase }
    {
        self.grants.drop_object(port);
        table::take(&mut self.table, port);
    }
}
