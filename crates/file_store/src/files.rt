//! The tree of files and its grants: how they are opened, and what is found in them.

ghost use Rattle.std.specs.Prelude.{◌≡◌, ◌<◌, true, [], length, is_some, Some, IsTrue, IfOk, OnOk};
ghost use Rattle.std.specs.FinMap as maps;
ghost use Rattle.access_vectors.specs.Decisions.{Decisions};
ghost use Rattle.access_vectors.specs.declared.phase.Phase.{Phase};
ghost use Rattle.retained_rights.specs.Rules.{Meets};
ghost use Rattle.retained_rights.specs.declared.rule.Rule.{Rule};
ghost use Rattle.file_tree.specs.PlainTree.{IsWellMade, plain, item_of, steps_of};
ghost use Rattle.file_calls.specs.Openings.{AreNodes, IsOpening};
ghost use Rattle.file_calls.specs.States.{opened_with, sid_of};
ghost use Rattle.file_store.specs.Laying.{MayLay};
ghost use Rattle.file_store.specs.Stores.{Safe, state_of, follows};

use access_vectors::Class;
use file_calls::{FileOpening, Node};
use file_tree::Tree;
use flask_sid::{Memory, Piece, Sid};
use retained_rights::{Callback, Grants, Rule};
use std::alloc::Global;
use std::marker::Model;

/// The tree of files, and a grant for each used slot. Contracts see a value `StoreView`. A change of policy is made on the grants
/// themselves, and leaves what each is for.
#[derive(Drop)]
pub struct Files<F: Callback> {
    pub(crate) opening: FileOpening,
    pub(crate) tree: Tree,
    pub grants: Grants<F>,
}

impl<F: Callback> Model for Files<F> {
    ghost use Rattle.file_store.specs.Stores.{StoreView, IsInStep, view_code};

    ghost Value = { StoreView };

    ghost coded = { view_code };

    ghost view = { λ files. record { opening = files.opening; nodes = files.tree; rights = files.grants } };

    ghost invariant = { λ files. IsInStep (record { opening = files.opening; nodes = files.tree; rights = files.grants }) };
}

impl<F: Callback + Drop> Files<F> {
    /// The files of an opening, with every slot free, and the policy settled at number 0 with version 0. The callback
    /// meets the rule Each.
    pub fn new(alloc: Global, opening: FileOpening, callback: F) -> Result<Files<F>, Memory>
        requires callback { Meets F.may F.gives Rule.Each callback }
        requires nodes { AreNodes opening.nodes }
        ensures opening { IfOk result (λ files. files.opening ≡ opening) }
        ensures state { IfOk result (λ files. state_of files ≡ opened_with opening) }
        ensures follows { IfOk result (λ files. follows files ≡ maps.empty) }
        ensures stale { IfOk result (λ files. files.rights.stale ≡ []) }
        ensures settled { IfOk result (λ files. files.rights.phase ≡ Phase.Settled 0 0) }
        ensures safe { IfOk result (λ files. (d : Decisions) → 0 < d.versions → IsOpening d opening → Safe d files) }
    {
        let mut tree = Tree::new(alloc, opening.root)?;
        for node in opening.nodes.as_slice() {
            lay(alloc, &mut tree, node)?;
        }
        Ok(Files {
            opening,
            tree,
            grants: Grants::new(alloc, Rule::Each, Class::File, callback),
        })
    }
}

impl<F: Callback> Files<F> {
    /// The identifier of a client.
    pub fn sid(&self, client: u8) -> Sid
        requires { client < length self.now.opening.clients }
        ensures sid { result ≡ sid_of (state_of self.now) client }
        ensures known { (d : Decisions) → Safe d self.now → IsTrue (d.known result) }
    {
        self.opening.clients.as_slice()[usize::from(client)]
    }

    /// The tree of files.
    pub fn tree(&self) -> &Tree
        ensures value { result.now ≡ self.now.nodes }
        ensures well_made { IsWellMade self.now.nodes }
    {
        &self.tree
    }

    /// A numbered node that is there.
    pub fn node(&self, object: u32) -> &file_tree::Node
        requires { is_some (maps.get self.now.nodes object) ≡ true }
        ensures is { maps.get self.now.nodes object ≡ Some result.now }
        ensures plain { maps.get (plain self.now.nodes) result.now.path ≡ Some (item_of result.now) }
        ensures known { (d : Decisions) → Safe d self.now → IsTrue (d.known result.now.label) }
    {
        self.tree.node(object).unwrap()
    }
}

// Puts a node of an opening into the tree, under key 0.
fn lay(alloc: Global, tree: &mut Tree, node: &Node) -> Result<(), Memory>
    requires may { MayLay (plain tree.old) node.now.path }
    requires made { IsWellMade tree.old }
    ensures laid { OnOk result (plain tree.new
        ≡ maps.insert (plain tree.old) (steps_of node.now.path) (record { label = node.now.sid; bytes = node.now.bytes })) }
    ensures made { OnOk result (IsWellMade tree.new) }
{
    let (name, above) = node.path.as_slice().split_last().unwrap();
    let directory = tree.find(above).unwrap();
    let bytes = copied(alloc, &node.bytes)?;
    tree.add(alloc, directory, 0, name.as_bytes(), node.sid, bytes)?;
    Ok(())
}

// A copy of the bytes of a file, none of a directory.
fn copied(alloc: Global, bytes: &Option<Piece>) -> Result<Option<Piece>, Memory>
    ensures { IfOk result (λ copied. copied ≡ bytes.now) }
{
    match bytes {
        None => Ok(None),
        Some(piece) => Ok(Some(piece.copy(alloc)?)),
    }
}
