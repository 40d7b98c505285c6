//! Changes of processes, and what they do to the slots.

ghost use Rattle.std.specs.Prelude.{◌≡◌, ◌<◌, true, None, is_some, IsTrue, OnOk, OnErr};
ghost use Rattle.std.specs.FinMap as maps;
ghost use Rattle.access_vectors.specs.Decisions.{Decisions};
ghost use Rattle.access_vectors.specs.Phases.{version_at, MayName};
ghost use Rattle.process_calls.specs.PlainManager.{follows_moved, follows_without};
ghost use Rattle.process_calls.specs.Rows.{gone};
ghost use Rattle.process_calls.specs.States.{process_limit, with_process};
ghost use Rattle.process_store.specs.Stores.{IsProcessOf, Safe, state_of, follows};

use crate::processes::Processes;
use access_vectors::Asker;
use flask_sid::Memory;
use process_calls::Process;
use retained_rights::Callback;

impl<F: Callback> Processes<F> {
    /// Starts a process at a number that is free, where there is room for one more. After `Memory` all is as before.
    pub fn add(&mut self, pid: u32, process: Process) -> Result<(), Memory>
        requires free { maps.get self.old.processes pid ≡ None }
        requires room { maps.len self.old.processes < process_limit }
        ensures state { OnOk result (state_of self.new ≡ with_process (state_of self.old) pid process) }
        ensures follows { follows self.new ≡ follows self.old }
        ensures as_before { OnErr result (self.new ≡ self.old) }
        ensures safe { (d : Decisions) → IsTrue (d.known process.label) → Safe d self.old → Safe d self.new }
        ensures opening { self.new.opening ≡ self.old.opening }
        ensures phase { self.new.rights.phase ≡ self.old.rights.phase }
    {
        self.table.grow(pid)?;
        self.table.set(pid, process);
        self.kept += 1;
        Ok(())
    }

    /// Puts a process in the place of one with the same label: it has ended, or its register is another. It takes no
    /// memory.
    pub fn replace(&mut self, pid: u32, process: Process)
        requires there { IsProcessOf self.old.processes pid process.label }
        ensures state { state_of self.new ≡ with_process (state_of self.old) pid process }
        ensures follows { follows self.new ≡ follows self.old }
        ensures safe { (d : Decisions) → Safe d self.old → Safe d self.new }
        ensures opening { self.new.opening ≡ self.old.opening }
        ensures phase { self.new.rights.phase ≡ self.old.rights.phase }
    {
        self.table.set(pid, process);
    }

    /// Puts a process in the place of one, under a policy number whose version the asker has: every slot that is attached
    /// to it is for the new label from then on, and follows the number, also where the label stays. After `Memory` all is
    /// as before.
    pub fn relabel<A: Asker>(
        &mut self,
        pid: u32,
        process: Process,
        number: u32,
        asker: &mut A,
    ) -> Result<(), Memory>
        requires safe { Safe (A.decides asker.old) self.old }
        requires there { is_some (maps.get self.old.processes pid) ≡ true }
        requires known { IsTrue ((A.decides asker.old).known process.label) }
        requires named { MayName self.old.rights.phase number }
        requires version { A.version asker.old ≡ version_at self.old.rights.phase number }
        ensures state { OnOk result (state_of self.new ≡ with_process (state_of self.old) pid process) }
        ensures follows { OnOk result (follows self.new ≡ follows_moved (state_of self.old) pid number (follows self.old)) }
        ensures as_before { OnErr result (self.new ≡ self.old) }
        ensures safe { Safe (A.decides asker.old) self.new }
        ensures opening { self.new.opening ≡ self.old.opening }
        ensures phase { self.new.rights.phase ≡ self.old.rights.phase }
        ensures keys { A.keys asker.new ≡ A.keys asker.old }
        ensures same { A.same asker.old asker.new }
        ensures decides { A.decides asker.new ≡ A.decides asker.old }
        ensures at_version { A.version asker.new ≡ A.version asker.old }
    {
        self.grants.relabel(pid, process.label, number, asker)?;
        self.table.set(pid, process);
        Ok(())
    }

    /// Takes a process away. Every slot that was attached to it is free. It takes no memory.
    pub fn remove(&mut self, pid: u32)
        requires there { is_some (maps.get self.old.processes pid) ≡ true }
        ensures state { state_of self.new ≡ gone (state_of self.old) pid }
        ensures follows { follows self.new ≡ follows_without (state_of self.old) pid (follows self.old) }
        ensures safe { (d : Decisions) → Safe d self.old → Safe d self.new }
        ensures opening { self.new.opening ≡ self.old.opening }
        ensures phase { self.new.rights.phase ≡ self.old.rights.phase }
    {
        self.grants.drop_object(pid);
        self.table.clear(pid);
        self.kept -= 1;
    }
}
