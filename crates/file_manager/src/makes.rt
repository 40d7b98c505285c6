//! Making files and directories.

ghost use Rattle.std.specs.Prelude.{◌≡◌, ◌<◌, length, None};
ghost use Rattle.std.specs.FinMap as maps;
ghost use Rattle.mode_questions.specs.Operations.{request};
ghost use Rattle.file_tree.specs.Nodes.{path_in, step_from};
ghost use Rattle.file_calls.specs.PathCalls;
ghost use Rattle.file_store.specs.Stores.{state_of};
ghost use Rattle.file_manager.specs.Serving.{MayServe, Serves};
ghost use Rattle.file_manager.specs.Walking.{IsFreeIn, label_of};

use crate::replies::{both, denied, stopped};
use crate::walks::{Below, Spot, name_of, walk_to_entry};
use access_vectors::perms::{DIR_ADD_NAME, DIR_CREATE, FILE_CREATE};
use access_vectors::{Asker, Class, Perm};
use file_calls::FileReply;
use file_store::Files;
use flask_sid::{Memory, Piece};
use mode_questions::{Doubled, Operation};
use retained_rights::Callback;

/// How many nodes may be kept, the root among them.
const NODE_LIMIT: usize = 4096;

/// Makes a file of these bytes or, where there are none, a directory.
pub fn make<F: Callback, A: Asker>(
    files: &mut Files<F>,
    operation: &mut Operation<A>,
    path: &[Piece],
    bytes: Option<Piece>,
) -> Result<Doubled<FileReply>, Memory>
    requires may { MayServe files.old (request operation.old) }
    requires some { 0 < length path.now }
    ensures { let r = request operation.old in
        Serves result files.old files.new operation.old operation.new (PathCalls.make_row r (state_of files.old) path.now bytes) }
{
    match walk_to_entry(files, operation, path)? {
        Below::Stopped(stop) => Ok(stopped(stop)),
        Below::Found { .. } => Ok(both(FileReply::Exists)),
        Below::Missing(spot) => make_in(files, operation, spot, name_of(path), bytes),
    }
}

/// Makes it in a directory, under a key and a name that are free there.
fn make_in<F: Callback, A: Asker>(
    files: &mut Files<F>,
    operation: &mut Operation<A>,
    spot: Spot,
    name: &[u8],
    bytes: Option<Piece>,
) -> Result<Doubled<FileReply>, Memory>
    requires may { MayServe files.old (request operation.old) }
    requires free { IsFreeIn files.old.nodes spot name.now }
    ensures { let r = request operation.old in
        let at = step_from (path_in files.old.nodes spot.directory) spot.key name.now in
        let above = label_of (maps.get files.old.nodes spot.directory) in
        Serves result files.old files.new operation.old operation.new (PathCalls.made_at r (state_of files.old) bytes at above None) }
{
    let caller = operation.caller;
    let above = files.node(spot.directory).label;
    let label = operation.label(caller.subject, above, class_of(&bytes));
    if !operation.ask(above, DIR_ADD_NAME)? {
        return Ok(denied(DIR_ADD_NAME, caller.number));
    }
    let create = create_perm(&bytes);
    if !operation.ask(label, create)? {
        return Ok(denied(create, caller.number));
    }
    if files.tree().len() >= NODE_LIMIT {
        return Ok(both(FileReply::TooMany));
    }
    files.add(caller.alloc, spot.directory, spot.key, name, label, bytes)?;
    Ok(both(FileReply::Done))
}

/// The class of what holds this: bytes, or nothing in a directory.
fn class_of(bytes: &Option<Piece>) -> Class
    ensures { result ≡ PathCalls.class_of bytes.now }
{
    match bytes {
        None => Class::Dir,
        Some(_bytes) => Class::File,
    }
}

/// The permission to make it.
fn create_perm(bytes: &Option<Piece>) -> Perm
    ensures { result ≡ PathCalls.create_perm bytes.now }
{
    match bytes {
        None => DIR_CREATE,
        Some(_bytes) => FILE_CREATE,
    }
}
