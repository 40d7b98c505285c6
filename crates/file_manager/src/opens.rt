//! Opening a file into a slot.

ghost use Rattle.std.specs.Prelude.{◌≡◌, true, is_some, option_map};
ghost use Rattle.std.specs.FinMap as maps;
ghost use Rattle.access_vectors.specs.Stale.{slot_place};
ghost use Rattle.mode_questions.specs.Operations.{request};
ghost use Rattle.file_tree.specs.Nodes.{path_in};
ghost use Rattle.file_tree.specs.PlainTree.{item_of};
ghost use Rattle.file_calls.specs.SlotCalls.{open_row, opened_at};
ghost use Rattle.file_store.specs.Stores.{state_of, follows};
ghost use Rattle.file_store.specs.Uses.{IsFree};
ghost use Rattle.file_manager.specs.Serving.{MayServe, ServesSlots};

use crate::replies::{both, denied, stopped};
use crate::walks::{Walked, walk};
use access_vectors::perms::{FILE_APPEND, FILE_READ, FILE_WRITE};
use access_vectors::{Asker, Perm, Vector};
use file_calls::FileReply;
use file_store::{Files, Filling};
use flask_sid::{Memory, Piece};
use mode_questions::{Doubled, Operation};
use retained_rights::Callback;

/// The permissions of a file's mode, in the order in which they are asked.
pub const MODE_PERMS: [Perm; 3] = [FILE_READ, FILE_WRITE, FILE_APPEND];

/// Opens the file of a path into a free slot of the caller.
pub fn open<F: Callback, A: Asker>(
    files: &mut Files<F>,
    operation: &mut Operation<A>,
    slot: u8,
    path: &[Piece],
    mode: Vector,
) -> Result<Doubled<FileReply>, Memory>
    requires { MayServe files.old (request operation.old) }
    ensures { let r = request operation.old in let place = slot_place r.client slot in
        ServesSlots (maps.insert (follows files.old) place r.number) result files.old files.new operation.old operation.new
        (open_row r (state_of files.old) place path.now mode) }
{
    if let Some(_usable) = files.slot_use(operation.caller.client, slot) {
        return Ok(both(FileReply::SlotUsed));
    }
    match walk(files, operation, path)? {
        Walked::Stopped(stop) => Ok(stopped(stop)),
        Walked::Missing => Ok(both(FileReply::NotFound)),
        Walked::Found(object) => open_node(files, operation, slot, object, mode),
    }
}

/// Opens a numbered node into a free slot of the caller.
fn open_node<F: Callback, A: Asker>(
    files: &mut Files<F>,
    operation: &mut Operation<A>,
    slot: u8,
    object: u32,
    mode: Vector,
) -> Result<Doubled<FileReply>, Memory>
    requires may { MayServe files.old (request operation.old) }
    requires there { is_some (maps.get files.old.nodes object) ≡ true }
    requires free { IsFree files.old (request operation.old).client slot }
    ensures { let r = request operation.old in let place = slot_place r.client slot in
        ServesSlots (maps.insert (follows files.old) place r.number) result files.old files.new operation.old operation.new
        (opened_at r (state_of files.old) place mode (path_in files.old.nodes object) (option_map item_of (maps.get files.old.nodes object))) }
{
    let node = files.node(object);
    let t = node.label;
    if node.bytes.is_none() {
        return Ok(both(FileReply::IsDir));
    }
    let caller = operation.caller;
    let s = caller.subject;
    if let Some(perm) = operation.ask_mode(s, t, mode, &MODE_PERMS)? {
        return Ok(denied(perm, caller.number));
    }
    let filling = Filling {
        object,
        s,
        t,
        mode,
        number: caller.number,
    };
    files.fill(caller.client, slot, filling, operation.asker)?;
    Ok(both(FileReply::Done))
}
