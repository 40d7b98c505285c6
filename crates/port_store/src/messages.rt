//! Messages that wait at bound ports.

ghost use Rattle.std.specs.Prelude.{◌≡◌, ◌<◌, OnOk, OnErr};
ghost use Rattle.std.specs.FinMap as maps;
ghost use Rattle.access_vectors.specs.Decisions.{Decisions};
ghost use Rattle.port_calls.specs.States.{message_limit};
ghost use Rattle.port_store.specs.Queues.{popped, pushed, waiting};
ghost use Rattle.port_store.specs.Stores.{Safe, state_of, follows};

use crate::ports::Ports;
use crate::table;
use flask_sid::{Memory, Piece};
use retained_rights::Callback;
use std::alloc::Global;

impl<F: Callback> Ports<F> {
    /// Adds a copy of a message as the newest at a bound port where there is room. After `Memory` all is as before.
    pub fn push(&mut self, alloc: Global, port: u32, message: &[u8]) -> Result<(), Memory>
        requires { waiting (maps.get self.old.ports port) < message_limit }
        ensures state { OnOk result (state_of self.new ≡ pushed (state_of self.old) port (maps.get self.old.ports port) message.now) }
        ensures as_before { OnErr result (self.new ≡ self.old) }
        ensures follows { follows self.new ≡ follows self.old }
        ensures safe { (d : Decisions) → Safe d self.old → Safe d self.new }
        ensures opening { self.new.opening ≡ self.old.opening }
        ensures phase { self.new.rights.phase ≡ self.old.rights.phase }
    {
        let kept = Piece::of(alloc, message)?;
        table::push(&mut self.table, port, kept);
        Ok(())
    }

    /// Drops the oldest message at a bound port, if one waits. It takes no memory.
    pub fn take_oldest(&mut self, port: u32)
        ensures state { state_of self.new ≡ popped (state_of self.old) port (maps.get self.old.ports port) }
        ensures follows { follows self.new ≡ follows self.old }
        ensures safe { (d : Decisions) → Safe d self.old → Safe d self.new }
        ensures opening { self.new.opening ≡ self.old.opening }
        ensures phase { self.new.rights.phase ≡ self.old.rights.phase }
    {
        table::pop(&mut self.table, port);
    }
}
