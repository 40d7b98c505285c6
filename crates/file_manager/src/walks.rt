//! Walks along a path, from directory to directory.

ghost use Rattle.std.specs.Prelude.{◌≡◌, ℕ, ◌<◌, true, List, [], is_some, length, IsTrue};
ghost use Rattle.std.specs.FinMap as maps;
ghost use Rattle.mode_questions.specs.Operations.{request, HasAsked};
ghost use Rattle.file_tree.specs.Nodes.{Nodes};
ghost use Rattle.file_tree.specs.PlainTree.{plain};
ghost use Rattle.file_calls.specs.Walks;
ghost use Rattle.file_calls.specs.Walks.{Walk, walked_from};
ghost use Rattle.file_manager.specs.Serving.{MayServe};
ghost use Rattle.file_manager.specs.Walking;
ghost use Rattle.file_manager.specs.Walking.{IsBelow, IsWalked, ComesBelow, ComesTo, walk_on};

use access_vectors::perms::DIR_SEARCH;
use access_vectors::{Asker, Class, Perm};
use file_store::Files;
use flask_sid::{Memory, Piece, Sid};
use mode_questions::Operation;
use retained_rights::Callback;

/// Why a walk stopped before the end of its path.
#[derive(Clone, Copy, Debug)]
pub enum Stop {
    /// Nothing stands where a name was to be looked up.
    NotFound,
    /// A file stands there.
    NotDir,
    /// The search of a directory was denied under this policy number.
    Denied { perm: Perm, policy: u32 },
}

/// Where an entry may be put: a directory, and the key under which the caller sees it.
#[derive(Clone, Copy, Debug)]
pub struct Spot {
    pub directory: u32,
    pub key: u16,
}

/// The end of a walk to an entry of a directory.
#[derive(Clone, Copy, Debug)]
pub enum Below {
    Stopped(Stop),
    /// There is no entry of the last name there.
    Missing(Spot),
    /// A numbered node stands there.
    Found { directory: u32, object: u32 },
}

/// The end of a walk.
#[derive(Clone, Copy, Debug)]
pub enum Walked {
    Stopped(Stop),
    /// There is no entry of the last name.
    Missing,
    /// The number of the node to which the path leads.
    Found(u32),
}

/// The last name of a path, and of `/` no bytes.
pub fn name_of(path: &[Piece]) -> &[u8]
    ensures { result.now ≡ Walking.name_of path.now }
{
    match path {
        [] => &[],
        [name, names @ ..] => last_name(name, names),
    }
}

/// The last of some names: of a first one and those behind it.
fn last_name<'a>(name: &'a Piece, names: &'a [Piece]) -> &'a [u8]
    ensures { result.now ≡ Walking.last_name name.now names.now }
{
    match names {
        [] => name.as_bytes(),
        [other, behind @ ..] => last_name(other, behind),
    }
}

/// Walks along a path from the root.
pub fn walk<F: Callback, A: Asker>(
    files: &Files<F>,
    operation: &mut Operation<A>,
    path: &[Piece],
) -> Result<Walked, Memory>
    requires { MayServe files.now (request operation.old) }
    ensures { ComesTo result files.now.nodes operation.old operation.new
        (walked_from (request operation.old) (plain files.now.nodes) 0 [] path.now) }
{
    if path.is_empty() {
        return Ok(Walked::Found(files.tree().root()));
    }
    let below = walk_to_entry(files, operation, path)?;
    Ok(end_of(below))
}

/// The end of a walk, without the directory in which it ended.
fn end_of(below: Below) -> Walked
    ensures { (nodes : Nodes) (walk : Walk) (name : List ℕ) → IsBelow nodes walk name below → IsWalked nodes walk result }
{
    match below {
        Below::Stopped(stop) => Walked::Stopped(stop),
        Below::Missing(_spot) => Walked::Missing,
        Below::Found { object, .. } => Walked::Found(object),
    }
}

/// Walks along a path with names to the entry of the last one.
pub fn walk_to_entry<F: Callback, A: Asker>(
    files: &Files<F>,
    operation: &mut Operation<A>,
    path: &[Piece],
) -> Result<Below, Memory>
    requires may { MayServe files.now (request operation.old) }
    requires some { 0 < length path.now }
    ensures { ComesBelow result files.now.nodes operation.old operation.new
        (walked_from (request operation.old) (plain files.now.nodes) 0 [] path.now) (Walking.name_of path.now) }
{
    let root = files.tree().root();
    let Some((name, names)) = path.split_first() else {
        unreachable!()
    };
    walk_below(files, operation, root, name, names)
}

/// Walks along some names from a numbered node: a first name, and those behind it.
fn walk_below<F: Callback, A: Asker>(
    files: &Files<F>,
    operation: &mut Operation<A>,
    from: u32,
    name: &Piece,
    names: &[Piece],
) -> Result<Below, Memory>
    requires may { MayServe files.now (request operation.old) }
    requires there { is_some (maps.get files.now.nodes from) ≡ true }
    ensures { (above : ℕ) → ComesBelow result files.now.nodes operation.old operation.new
        (walk_on (request operation.old) files.now.nodes above from name.now names.now) (Walking.last_name name.now names.now) }
{
    let below = look_up(files, operation, from, name)?;
    let Some((next, behind)) = names.split_first() else {
        return Ok(below);
    };
    match below {
        Below::Stopped(stop) => Ok(Below::Stopped(stop)),
        Below::Missing(_spot) => Ok(Below::Stopped(Stop::NotFound)),
        Below::Found { object, .. } => walk_below(files, operation, object, next, behind),
    }
}

/// Looks a name up in a numbered node.
#[tactic(auto, unfolding(crate::specs::Walking::walk_on))]
fn look_up<F: Callback, A: Asker>(
    files: &Files<F>,
    operation: &mut Operation<A>,
    from: u32,
    name: &Piece,
) -> Result<Below, Memory>
    requires may { MayServe files.now (request operation.old) }
    requires there { is_some (maps.get files.now.nodes from) ≡ true }
    ensures { (above : ℕ) → ComesBelow result files.now.nodes operation.old operation.new
        (walk_on (request operation.old) files.now.nodes above from name.now []) name.now }
{
    let node = files.node(from);
    if node.bytes.is_some() {
        return Ok(Below::Stopped(Stop::NotDir));
    }
    let label = node.label;
    if !operation.ask(label, DIR_SEARCH)? {
        let policy = operation.caller.number;
        return Ok(Below::Stopped(Stop::Denied {
            perm: DIR_SEARCH,
            policy,
        }));
    }
    let key = entry_key(operation, label);
    match files.tree().entry(from, key, name.as_bytes()) {
        None => Ok(Below::Missing(Spot {
            directory: from,
            key,
        })),
        Some(object) => Ok(Below::Found {
            directory: from,
            object,
        }),
    }
}

/// The key under which the caller looks entries of a directory with this label up.
pub fn entry_key<A: Asker>(operation: &mut Operation<A>, label: Sid) -> u16
    requires { IsTrue ((request operation.old).decisions.known label) }
    ensures key { result ≡ Walks.entry_key (request operation.old) label }
    ensures asked { HasAsked operation.old operation.new [] }
{
    let member = operation.member(label, Class::Dir);
    if member.number() == label.number() {
        0
    } else {
        member.number()
    }
}
