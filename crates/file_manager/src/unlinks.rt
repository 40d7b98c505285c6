//! Taking entries out of their directory.

ghost use Rattle.std.specs.Prelude.{◌<◌, length, option_map};
ghost use Rattle.std.specs.FinMap as maps;
ghost use Rattle.mode_questions.specs.Operations.{request};
ghost use Rattle.file_tree.specs.Nodes.{path_in};
ghost use Rattle.file_tree.specs.PlainTree.{item_of};
ghost use Rattle.file_calls.specs.PathCalls.{unlink_row, unlinked_at};
ghost use Rattle.file_calls.specs.PlainManager.{follows_without};
ghost use Rattle.file_calls.specs.Walks.{walked};
ghost use Rattle.file_store.specs.Stores.{state_of, follows};
ghost use Rattle.file_manager.specs.Serving.{MayServe, ServesSlots};
ghost use Rattle.file_manager.specs.Walking.{IsEntryOf, label_of};

use crate::replies::{both, denied, stopped};
use crate::walks::{Below, walk_to_entry};
use access_vectors::Asker;
use access_vectors::perms::{DIR_REMOVE_NAME, FILE_UNLINK};
use file_calls::FileReply;
use file_store::Files;
use flask_sid::{Memory, Piece};
use mode_questions::{Doubled, Operation};
use retained_rights::Callback;

/// Takes a file, or a directory without entries, out of its directory.
pub fn unlink<F: Callback, A: Asker>(
    files: &mut Files<F>,
    operation: &mut Operation<A>,
    path: &[Piece],
) -> Result<Doubled<FileReply>, Memory>
    requires may { MayServe files.old (request operation.old) }
    requires some { 0 < length path.now }
    ensures { let r = request operation.old in let state = state_of files.old in
        ServesSlots (follows_without state (walked r state path.now).at (follows files.old)) result files.old files.new operation.old operation.new
        (unlink_row r state path.now) }
{
    match walk_to_entry(files, operation, path)? {
        Below::Stopped(stop) => Ok(stopped(stop)),
        Below::Missing(_spot) => Ok(both(FileReply::NotFound)),
        Below::Found { directory, object } => unlink_node(files, operation, directory, object),
    }
}

/// Takes a numbered node out of its directory.
fn unlink_node<F: Callback, A: Asker>(
    files: &mut Files<F>,
    operation: &mut Operation<A>,
    directory: u32,
    object: u32,
) -> Result<Doubled<FileReply>, Memory>
    requires may { MayServe files.old (request operation.old) }
    requires entry { IsEntryOf files.old.nodes directory object }
    ensures { let r = request operation.old in let state = state_of files.old in let at = path_in files.old.nodes object in
        ServesSlots (follows_without state at (follows files.old)) result files.old files.new operation.old operation.new
        (unlinked_at r state at (label_of (maps.get files.old.nodes directory)) (option_map item_of (maps.get files.old.nodes object))) }
{
    let number = operation.caller.number;
    if !operation.ask(files.node(directory).label, DIR_REMOVE_NAME)? {
        return Ok(denied(DIR_REMOVE_NAME, number));
    }
    let node = files.node(object);
    if node.bytes.is_some() {
        if !operation.ask(node.label, FILE_UNLINK)? {
            return Ok(denied(FILE_UNLINK, number));
        }
        files.remove(object);
        return Ok(both(FileReply::Done));
    }
    if files.tree().has_entries(object) {
        return Ok(both(FileReply::NotEmpty));
    }
    files.remove(object);
    Ok(both(FileReply::Done))
}
