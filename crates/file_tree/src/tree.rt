//! The tree: how it is made, what is found in it, and how nodes are added and taken out.

ghost use Rattle.std.specs.Prelude.{◌≡◌, ◌++◌, true, [], None, Some, is_some, IfOk, IfSome, OnOk, OnErr, MatchOption};
ghost use Rattle.std.specs.FinMap as maps;
ghost use Rattle.std.specs.Option.{option_copied};
ghost use Rattle.file_tree.specs.Nodes.{AreInParents, ArePathsOnce, IsAt, IsFree, HasNoEntry, added, is_directory, path_in, step_from};
ghost use Rattle.file_tree.specs.PlainTree.{IsMirrored, IsWellMade, plain, plain_without, item_of, item_in, steps_of};
ghost use Rattle.file_tree.specs.Shelves.{place_of};

use crate::entries::EntryIndex;
use crate::node::Node;
use crate::slots::{free_slot, put_node, take_node};
use crate::step::{Step, copy_path};
use flask_sid::{Memory, Piece, Rows, Sid};
use std::alloc::Global;
use std::marker::Model;

/// A tree of numbered nodes. Contracts see the nodes by their numbers.
#[derive(Debug, Drop)]
pub struct Tree {
    pub(crate) slots: Vec<Option<Node>>,
    spare: Vec<u32>,
    used: usize,
    pub(crate) entries: EntryIndex,
}

impl Model for Tree {
    ghost use Rattle.std.specs.Prelude.{◌≡◌, ℕ, ◌≤◌, ◌^◌, length};
    ghost use Rattle.std.specs.FinMap as maps;
    ghost use Rattle.std.specs.Coded.{coded_ℕ};
    ghost use Rattle.slot_tables.specs.Slots.{map_of};
    ghost use Rattle.file_tree.specs.contracts.node.Node as node_type;
    ghost use Rattle.file_tree.specs.Nodes.{Nodes, IsTree};

    ghost Value = { Nodes };

    ghost coded = { maps.code coded_ℕ node_type.the_row.coded };

    ghost view = { λ tree. map_of tree.slots.items };

    ghost invariant = { λ tree. IsTree (map_of tree.slots.items) tree.entries × (length tree.slots.items ≤ 2 ^ 32)
        × (tree.used ≡ maps.len (map_of tree.slots.items)) };
}

// The place of a directory's entries under a key.
pub(crate) fn place_of(directory: u32, key: u16) -> u64
    ensures { result ≡ place_of directory key }
{
    65536 * u64::from(directory) + u64::from(key)
}

impl Tree {
    /// The tree of a root alone, which is numbered 0.
    pub fn new(alloc: Global, label: Sid) -> Result<Tree, Memory>
        ensures nodes { IfOk result (λ tree. tree ≡ maps.insert maps.empty 0 (record { parent = 0; path = []; label = label; bytes = None })) }
        ensures plain { IfOk result (λ tree. plain tree ≡ maps.insert maps.empty [] (record { label = label; bytes = None })) }
        ensures made { IfOk result IsWellMade }
    {
        let root = Node {
            parent: 0,
            path: Rows::new(alloc),
            label,
            bytes: None,
        };
        let mut slots = Vec::new(alloc);
        slots.push(Some(root))?;
        Ok(Tree {
            slots,
            spare: Vec::new(alloc),
            used: 1,
            entries: EntryIndex::new(alloc),
        })
    }

    /// The number of the root. No two nodes have one path, and each but the root stands in its parent.
    pub fn root(&self) -> u32
        ensures root { result ≡ 0 }
        ensures directory { is_directory (maps.get self.now 0) ≡ true }
        ensures path { path_in self.now 0 ≡ [] }
        ensures once { ArePathsOnce self.now }
        ensures parents { AreInParents self.now }
        ensures mirrored { IsMirrored self.now }
        ensures made { IsWellMade self.now }
    {
        let _slots = &self.slots;
        0
    }

    /// How many nodes there are.
    pub fn len(&self) -> usize
        ensures nodes { result ≡ maps.len self.now }
        ensures plain { result ≡ maps.len (plain self.now) }
    {
        self.used
    }

    /// A numbered node, or `None` exactly where there is none of that number.
    pub fn node(&self, number: u32) -> Option<&Node>
        ensures node { option_copied result ≡ maps.get self.now number }
        ensures plain { IfSome result (λ node. maps.get (plain self.now) node.now.path ≡ Some (item_of node.now)) }
    {
        self.slots.as_slice().get(number as usize)?.as_ref()
    }

    /// The path of a node; empty where there is none.
    pub fn path(&self, number: u32) -> &[Step]
        ensures { result.now ≡ path_in self.now number }
    {
        match self.node(number) {
            Some(node) => node.path.as_slice(),
            None => &[],
        }
    }

    /// The number of what stands in a directory under a key and a name, or `None` exactly where nothing does.
    pub fn entry(&self, directory: u32, key: u16, name: &[u8]) -> Option<u32>
        requires { is_directory (maps.get self.now directory) ≡ true }
        ensures there { let path = step_from (path_in self.now directory) key name.now in
            MatchOption result (IsFree self.now path) (IsAt self.now path) }
        ensures plain { maps.get (plain self.now) (step_from (path_in self.now directory) key name.now) ≡ item_in self.now result }
    {
        self.entries.get(place_of(directory, key), name)
    }

    /// The number of what stands at a path of names under key 0, or `None` exactly where nothing does.
    pub fn find(&self, names: &[Piece]) -> Option<u32>
        ensures there { MatchOption result (IsFree self.now (steps_of names.now)) (IsAt self.now (steps_of names.now)) }
        ensures plain { maps.get (plain self.now) (steps_of names.now) ≡ item_in self.now result }
    {
        self.find_from(self.root(), names)
    }

    // The number of what stands at a path of names under key 0 below a node.
    fn find_from(&self, here: u32, names: &[Piece]) -> Option<u32>
        requires there { is_some (maps.get self.now here) ≡ true }
        requires made { IsWellMade self.now }
        ensures { let path = path_in self.now here ++ steps_of names.now in
            MatchOption result (IsFree self.now path) (IsAt self.now path) }
    {
        let [name, rest @ ..] = names else {
            return Some(here);
        };
        if self.node(here)?.bytes.is_some() {
            return None;
        }
        let next = self.entry(here, 0, name.as_bytes())?;
        self.find_from(next, rest)
    }

    /// Adds an entry to a directory, and answers the new node's number. After `Memory` all is as before.
    pub fn add(
        &mut self,
        alloc: Global,
        directory: u32,
        key: u16,
        name: &[u8],
        label: Sid,
        bytes: Option<Piece>,
    ) -> Result<u32, Memory>
        requires directory { is_directory (maps.get self.old directory) ≡ true }
        requires free { IsFree self.old (step_from (path_in self.old directory) key name.now) }
        ensures unused { IfOk result (λ number. maps.get self.old number ≡ None) }
        ensures ok { IfOk result (λ number. self.new ≡ maps.insert self.old number (added self.old directory key name.now label bytes)) }
        ensures plain { OnOk result (plain self.new
            ≡ maps.insert (plain self.old) (step_from (path_in self.old directory) key name.now) (record { label = label; bytes = bytes })) }
        ensures made { OnOk result (IsWellMade self.new) }
        ensures err { OnErr result (self.new ≡ self.old) }
    {
        let path = self.path_below(alloc, directory, key, name)?;
        let kept = Vec::from_slice(alloc, name)?;
        let number = free_slot(&mut self.slots, &mut self.spare)?;
        let Ok(()) = self
            .entries
            .add(alloc, place_of(directory, key), kept, number)
        else {
            let _ = self.spare.push(number);
            return Err(Memory);
        };
        let parent = directory;
        put_node(
            &mut self.slots,
            number,
            Node {
                parent,
                path,
                label,
                bytes,
            },
        );
        self.used += 1;
        Ok(number)
    }

    // The path of an entry of a directory.
    fn path_below(
        &self,
        alloc: Global,
        directory: u32,
        key: u16,
        name: &[u8],
    ) -> Result<Rows<Step>, Memory>
        ensures { IfOk result (λ path. path ≡ step_from (path_in self.now directory) key name.now) }
    {
        let mut path = copy_path(alloc, self.path(directory))?;
        let name = Piece::of(alloc, name)?;
        path.push(Step { key, name })?;
        Ok(path)
    }

    /// Takes a node out that is not the root and has no entry. Nothing happens where there is none of that number.
    pub fn remove(&mut self, number: u32)
        requires not_root { number ≡ 0 → ⊥ }
        requires empty { HasNoEntry self.old (path_in self.old number) }
        ensures nodes { self.new ≡ maps.remove self.old number }
        ensures plain { plain self.new ≡ plain_without (plain self.old) (maps.get self.old number) }
        ensures made { IsWellMade self.new }
    {
        let Some(node) = take_node(&mut self.slots, number) else {
            return;
        };
        self.used -= 1;
        let _ = self.spare.push(number);
        let Some(step) = node.path.as_slice().last() else {
            return;
        };
        self.entries
            .remove(place_of(node.parent, step.key), step.name.as_bytes());
    }
}
