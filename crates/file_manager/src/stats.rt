//! Label and size of what stands at a path.

ghost use Rattle.std.specs.Prelude.{◌≡◌, true, [], is_some, option_map, IfSome};
ghost use Rattle.std.specs.FinMap as maps;
ghost use Rattle.mode_questions.specs.Operations.{request, HasAsked};
ghost use Rattle.file_tree.specs.Nodes.{path_in};
ghost use Rattle.file_tree.specs.PlainTree.{item_of};
ghost use Rattle.file_calls.specs.PathCalls;
ghost use Rattle.file_store.specs.Stores.{state_of};
ghost use Rattle.file_manager.specs.Serving.{MayServe, Says};

use crate::replies::{both, denied, stopped};
use crate::walks::{Walked, entry_key, walk};
use access_vectors::perms::{DIR_GETATTR, FILE_GETATTR};
use access_vectors::{Asker, Perm};
use file_calls::FileReply;
use file_store::Files;
use flask_sid::{Memory, Piece};
use mode_questions::{Doubled, Operation};
use retained_rights::Callback;

/// Tells label and size of what stands at a path.
pub fn stat<F: Callback, A: Asker>(
    files: &Files<F>,
    operation: &mut Operation<A>,
    path: &[Piece],
) -> Result<Doubled<FileReply>, Memory>
    requires { MayServe files.now (request operation.old) }
    ensures { let r = request operation.old in
        Says result files.now operation.old operation.new (PathCalls.stat_row r (state_of files.now) path.now) }
{
    match walk(files, operation, path)? {
        Walked::Stopped(stop) => Ok(stopped(stop)),
        Walked::Missing => Ok(both(FileReply::NotFound)),
        Walked::Found(object) => stat_of(files, operation, object),
    }
}

/// Tells label and size of a numbered node.
fn stat_of<F: Callback, A: Asker>(
    files: &Files<F>,
    operation: &mut Operation<A>,
    object: u32,
) -> Result<Doubled<FileReply>, Memory>
    requires may { MayServe files.now (request operation.old) }
    requires there { is_some (maps.get files.now.nodes object) ≡ true }
    ensures { let r = request operation.old in let at = path_in files.now.nodes object in
        Says result files.now operation.old operation.new (PathCalls.told_at r (state_of files.now) at (option_map item_of (maps.get files.now.nodes object))) }
{
    let node = files.node(object);
    let sid = node.label;
    let perm = getattr_perm(&node.bytes);
    if !operation.ask(sid, perm)? {
        return Ok(denied(perm, operation.caller.number));
    }
    let number = size_of(files, operation, object);
    Ok(both(FileReply::Stat { sid, number }))
}

/// The permission to look at what holds this: bytes, or nothing in a directory.
fn getattr_perm(bytes: &Option<Piece>) -> Perm
    ensures { result ≡ PathCalls.getattr_perm bytes.now }
{
    match bytes {
        None => DIR_GETATTR,
        Some(_bytes) => FILE_GETATTR,
    }
}

/// How many bytes a file has, or how many entries of a directory the caller sees.
fn size_of<F: Callback, A: Asker>(
    files: &Files<F>,
    operation: &mut Operation<A>,
    object: u32,
) -> u64
    requires may { MayServe files.now (request operation.old) }
    requires there { is_some (maps.get files.now.nodes object) ≡ true }
    ensures size { let r = request operation.old in IfSome (maps.get files.now.nodes object) (λ node.
        result ≡ PathCalls.size_of r (state_of files.now) (path_in files.now.nodes object) node.label node.bytes) }
    ensures asked { HasAsked operation.old operation.new [] }
{
    let node = files.node(object);
    match &node.bytes {
        Some(bytes) => bytes.len() as u64,
        None => {
            let key = entry_key(operation, node.label);
            files.tree().count(object, key) as u64
        }
    }
}
