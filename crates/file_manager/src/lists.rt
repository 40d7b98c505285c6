//! Listing a directory.

ghost use Rattle.std.specs.Prelude.{◌≡◌, true, is_some, option_map};
ghost use Rattle.std.specs.FinMap as maps;
ghost use Rattle.mode_questions.specs.Operations.{request};
ghost use Rattle.file_tree.specs.Nodes.{path_in};
ghost use Rattle.file_tree.specs.PlainTree.{item_of};
ghost use Rattle.file_calls.specs.PathCalls.{list_row, listed_at};
ghost use Rattle.file_store.specs.Stores.{state_of};
ghost use Rattle.file_manager.specs.Serving.{MayServe, Says};

use crate::replies::{both, denied, listed, stopped};
use crate::walks::{Walked, entry_key, walk};
use access_vectors::Asker;
use access_vectors::perms::DIR_READ;
use file_calls::FileReply;
use file_store::Files;
use flask_sid::{Memory, Piece};
use mode_questions::{Doubled, Operation};
use retained_rights::Callback;

/// How many names one list has at most.
const MOST_NAMES: usize = 16;

/// The names in a directory, without the first `skip` of them, and at most 16.
pub fn list<F: Callback, A: Asker>(
    files: &Files<F>,
    operation: &mut Operation<A>,
    path: &[Piece],
    skip: u32,
) -> Result<Doubled<FileReply>, Memory>
    requires { MayServe files.now (request operation.old) }
    ensures { let r = request operation.old in
        Says result files.now operation.old operation.new (list_row r (state_of files.now) path.now skip) }
{
    match walk(files, operation, path)? {
        Walked::Stopped(stop) => Ok(stopped(stop)),
        Walked::Missing => Ok(both(FileReply::NotFound)),
        Walked::Found(object) => list_node(files, operation, object, skip),
    }
}

/// The names in a numbered node.
fn list_node<F: Callback, A: Asker>(
    files: &Files<F>,
    operation: &mut Operation<A>,
    object: u32,
    skip: u32,
) -> Result<Doubled<FileReply>, Memory>
    requires may { MayServe files.now (request operation.old) }
    requires there { is_some (maps.get files.now.nodes object) ≡ true }
    ensures { let r = request operation.old in let at = path_in files.now.nodes object in
        Says result files.now operation.old operation.new (listed_at r (state_of files.now) skip at (option_map item_of (maps.get files.now.nodes object))) }
{
    let node = files.node(object);
    if node.bytes.is_some() {
        return Ok(both(FileReply::NotDir));
    }
    let label = node.label;
    let caller = operation.caller;
    if !operation.ask(label, DIR_READ)? {
        return Ok(denied(DIR_READ, caller.number));
    }
    let key = entry_key(operation, label);
    let names = files
        .tree()
        .names(caller.alloc, object, key, skip as usize, MOST_NAMES)?;
    listed(caller.alloc, names)
}
