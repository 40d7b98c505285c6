//! Giving what stands at a path another label.

ghost use Rattle.std.specs.Prelude.{◌≡◌, true, is_some, option_map, IsTrue};
ghost use Rattle.std.specs.FinMap as maps;
ghost use Rattle.mode_questions.specs.Operations.{request};
ghost use Rattle.file_tree.specs.Nodes.{path_in};
ghost use Rattle.file_tree.specs.PlainTree.{item_of};
ghost use Rattle.file_calls.specs.PathCalls;
ghost use Rattle.file_calls.specs.PlainManager.{follows_moved};
ghost use Rattle.file_calls.specs.Walks.{walked};
ghost use Rattle.file_store.specs.Stores.{state_of, follows};
ghost use Rattle.file_manager.specs.Serving.{MayServe, ServesSlots};

use crate::replies::{both, denied, stopped};
use crate::walks::{Walked, walk};
use access_vectors::perms::{DIR_RELABELFROM, DIR_RELABELTO, FILE_RELABELFROM, FILE_RELABELTO};
use access_vectors::{Asker, Perm};
use file_calls::FileReply;
use file_store::Files;
use flask_sid::{Memory, Piece, Sid};
use mode_questions::{Doubled, Operation};
use retained_rights::Callback;

/// Gives what stands at a path another label.
pub fn relabel<F: Callback, A: Asker>(
    files: &mut Files<F>,
    operation: &mut Operation<A>,
    path: &[Piece],
    label: Sid,
) -> Result<Doubled<FileReply>, Memory>
    requires may { MayServe files.old (request operation.old) }
    requires known { IsTrue ((request operation.old).decisions.known label) }
    ensures { let r = request operation.old in let state = state_of files.old in
        ServesSlots (follows_moved state (walked r state path.now).at r.number (follows files.old)) result files.old files.new operation.old operation.new
        (PathCalls.relabel_row r state path.now label) }
{
    match walk(files, operation, path)? {
        Walked::Stopped(stop) => Ok(stopped(stop)),
        Walked::Missing => Ok(both(FileReply::NotFound)),
        Walked::Found(object) => relabel_node(files, operation, object, label),
    }
}

/// Gives a numbered node another label.
fn relabel_node<F: Callback, A: Asker>(
    files: &mut Files<F>,
    operation: &mut Operation<A>,
    object: u32,
    label: Sid,
) -> Result<Doubled<FileReply>, Memory>
    requires may { MayServe files.old (request operation.old) }
    requires there { is_some (maps.get files.old.nodes object) ≡ true }
    requires known { IsTrue ((request operation.old).decisions.known label) }
    ensures { let r = request operation.old in let state = state_of files.old in let at = path_in files.old.nodes object in
        ServesSlots (follows_moved state at r.number (follows files.old)) result files.old files.new operation.old operation.new
        (PathCalls.relabelled_at r state label at (option_map item_of (maps.get files.old.nodes object))) }
{
    let number = operation.caller.number;
    let node = files.node(object);
    let before = node.label;
    let from = relabelfrom_perm(&node.bytes);
    let to = relabelto_perm(&node.bytes);
    if !operation.ask(before, from)? {
        return Ok(denied(from, number));
    }
    if !operation.ask(label, to)? {
        return Ok(denied(to, number));
    }
    files.relabel(object, label, number, operation.asker)?;
    Ok(both(FileReply::Done))
}

/// The permission to take its label from what holds this: bytes, or nothing in a directory.
fn relabelfrom_perm(bytes: &Option<Piece>) -> Perm
    ensures { result ≡ PathCalls.relabelfrom_perm bytes.now }
{
    match bytes {
        None => DIR_RELABELFROM,
        Some(_bytes) => FILE_RELABELFROM,
    }
}

/// The permission to give it a label.
fn relabelto_perm(bytes: &Option<Piece>) -> Perm
    ensures { result ≡ PathCalls.relabelto_perm bytes.now }
{
    match bytes {
        None => DIR_RELABELTO,
        Some(_bytes) => FILE_RELABELTO,
    }
}
