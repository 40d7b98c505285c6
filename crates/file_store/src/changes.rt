//! Changes of the tree, and what they do to the slots.

ghost use Rattle.std.specs.Prelude.{◌≡◌, ◌++◌, true, is_some, IsTrue, OnOk, OnErr};
ghost use Rattle.std.specs.FinMap as maps;
ghost use Rattle.access_vectors.specs.Decisions.{Decisions};
ghost use Rattle.access_vectors.specs.Phases.{version_at, MayName};
ghost use Rattle.file_tree.specs.Bytes.{written};
ghost use Rattle.file_tree.specs.Nodes.{HasNoEntry, IsFree, bytes_of, is_directory, is_file, path_in, step_from};
ghost use Rattle.file_tree.specs.PlainTree.{plain_relabelled, plain_with_bytes};
ghost use Rattle.file_calls.specs.PathCalls.{taken_out};
ghost use Rattle.file_calls.specs.PlainManager.{follows_moved, follows_without};
ghost use Rattle.file_calls.specs.States.{with_tree};
ghost use Rattle.file_store.specs.Stores.{Safe, state_of, follows};

use crate::files::Files;
use access_vectors::Asker;
use flask_sid::{Memory, Piece, Sid};
use retained_rights::Callback;
use std::alloc::Global;

impl<F: Callback> Files<F> {
    /// Adds an entry to a directory: a file with these bytes, or a directory where there are none. After `Memory` all is
    /// as before.
    pub fn add(
        &mut self,
        alloc: Global,
        directory: u32,
        key: u16,
        name: &[u8],
        label: Sid,
        bytes: Option<Piece>,
    ) -> Result<(), Memory>
        requires directory { is_directory (maps.get self.old.nodes directory) ≡ true }
        requires free { IsFree self.old.nodes (step_from (path_in self.old.nodes directory) key name.now) }
        ensures state { let at = step_from (path_in self.old.nodes directory) key name.now in OnOk result (state_of self.new
            ≡ with_tree (state_of self.old) (maps.insert (state_of self.old).tree at (record { label = label; bytes = bytes }))) }
        ensures follows { follows self.new ≡ follows self.old }
        ensures as_before { OnErr result (self.new ≡ self.old) }
        ensures safe { (d : Decisions) → IsTrue (d.known label) → Safe d self.old → Safe d self.new }
        ensures opening { self.new.opening ≡ self.old.opening }
        ensures phase { self.new.rights.phase ≡ self.old.rights.phase }
    {
        let _number = self.tree.add(alloc, directory, key, name, label, bytes)?;
        Ok(())
    }

    /// Takes a node out that is not the root, and has no entry if it is a directory. Every slot that held it is free. It
    /// takes no memory.
    pub fn remove(&mut self, object: u32)
        requires there { is_some (maps.get self.old.nodes object) ≡ true }
        requires below { object ≡ 0 → ⊥ }
        requires empty { is_directory (maps.get self.old.nodes object) ≡ true → HasNoEntry self.old.nodes (path_in self.old.nodes object) }
        ensures state { state_of self.new ≡ (taken_out (state_of self.old) (path_in self.old.nodes object)).state }
        ensures follows { follows self.new ≡ follows_without (state_of self.old) (path_in self.old.nodes object) (follows self.old) }
        ensures safe { (d : Decisions) → Safe d self.old → Safe d self.new }
        ensures opening { self.new.opening ≡ self.old.opening }
        ensures phase { self.new.rights.phase ≡ self.old.rights.phase }
    {
        self.grants.drop_object(object);
        self.tree.remove(object);
    }

    /// Gives a node another label, under a policy number whose version the asker has: every slot that holds it is for the
    /// new label from then on, and follows the number. After `Memory` all is as before.
    pub fn relabel<A: Asker>(
        &mut self,
        object: u32,
        label: Sid,
        number: u32,
        asker: &mut A,
    ) -> Result<(), Memory>
        requires safe { Safe (A.decides asker.old) self.old }
        requires there { is_some (maps.get self.old.nodes object) ≡ true }
        requires known { IsTrue ((A.decides asker.old).known label) }
        requires named { MayName self.old.rights.phase number }
        requires version { A.version asker.old ≡ version_at self.old.rights.phase number }
        ensures state { OnOk result (state_of self.new
            ≡ with_tree (state_of self.old) (plain_relabelled (state_of self.old).tree label (maps.get self.old.nodes object))) }
        ensures follows { OnOk result (follows self.new
            ≡ follows_moved (state_of self.old) (path_in self.old.nodes object) number (follows self.old)) }
        ensures as_before { OnErr result (self.new ≡ self.old) }
        ensures safe { Safe (A.decides asker.old) self.new }
        ensures opening { self.new.opening ≡ self.old.opening }
        ensures phase { self.new.rights.phase ≡ self.old.rights.phase }
        ensures keys { A.keys asker.new ≡ A.keys asker.old }
        ensures same { A.same asker.old asker.new }
        ensures decides { A.decides asker.new ≡ A.decides asker.old }
        ensures at_version { A.version asker.new ≡ A.version asker.old }
    {
        self.grants.relabel(object, label, number, asker)?;
        self.tree.set_label(object, label);
        Ok(())
    }

    /// Writes a piece over a file from an offset on; a gap is filled. After `Memory` all is as before.
    pub fn write(
        &mut self,
        alloc: Global,
        object: u32,
        offset: u32,
        piece: &[u8],
    ) -> Result<(), Memory>
        requires { is_file (maps.get self.old.nodes object) ≡ true }
        ensures state { let was = maps.get self.old.nodes object in OnOk result (state_of self.new
            ≡ with_tree (state_of self.old) (plain_with_bytes (state_of self.old).tree (written (bytes_of was) offset piece.now) was)) }
        ensures follows { follows self.new ≡ follows self.old }
        ensures as_before { OnErr result (self.new ≡ self.old) }
        ensures safe { (d : Decisions) → Safe d self.old → Safe d self.new }
        ensures opening { self.new.opening ≡ self.old.opening }
        ensures phase { self.new.rights.phase ≡ self.old.rights.phase }
    {
        self.tree.write(alloc, object, offset, piece)?;
        Ok(())
    }

    /// Adds a piece at the end of a file. After `Memory` all is as before.
    pub fn append(&mut self, alloc: Global, object: u32, piece: &[u8]) -> Result<(), Memory>
        requires { is_file (maps.get self.old.nodes object) ≡ true }
        ensures state { let was = maps.get self.old.nodes object in OnOk result (state_of self.new
            ≡ with_tree (state_of self.old) (plain_with_bytes (state_of self.old).tree (bytes_of was ++ piece.now) was)) }
        ensures follows { follows self.new ≡ follows self.old }
        ensures as_before { OnErr result (self.new ≡ self.old) }
        ensures safe { (d : Decisions) → Safe d self.old → Safe d self.new }
        ensures opening { self.new.opening ≡ self.old.opening }
        ensures phase { self.new.rights.phase ≡ self.old.rights.phase }
    {
        self.tree.append(alloc, object, piece)?;
        Ok(())
    }
}
