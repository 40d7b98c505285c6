//! Reading through a slot.

ghost use Rattle.std.specs.Prelude.{◌≡◌, take, drop};
ghost use Rattle.access_vectors.specs.Stale.{slot_place};
ghost use Rattle.mode_questions.specs.Operations.{request};
ghost use Rattle.file_calls.specs.SlotCalls.{read_row};
ghost use Rattle.file_store.specs.Stores.{state_of};
ghost use Rattle.file_manager.specs.Serving.{MayServe, SaysThrough};

use crate::replies::{both, denied};
use crate::slots::usage_of;
use access_vectors::Asker;
use access_vectors::perms::FILE_READ;
use file_calls::FileReply;
use file_store::Files;
use flask_sid::{Memory, Piece};
use mode_questions::{Doubled, Operation};
use retained_rights::Callback;

/// Reads at most `most` bytes of the file of a caller's slot, from `offset` on.
#[inline(always)]
pub fn read<F: Callback, A: Asker>(
    files: &Files<F>,
    operation: &mut Operation<A>,
    slot: u8,
    offset: u32,
    most: u32,
) -> Result<Doubled<FileReply>, Memory>
    requires { MayServe files.now (request operation.old) }
    ensures { let r = request operation.old in let place = slot_place r.client slot in
        SaysThrough place result files.now operation.old operation.new (read_row r (state_of files.now) place offset most) }
{
    let Some((usable, bytes)) = files.held(operation.caller.client, slot) else {
        return Ok(both(FileReply::BadSlot));
    };
    if !usable.mode.has(FILE_READ.index()) {
        return Ok(both(FileReply::BadMode));
    }
    if !operation.ask_use(usage_of(&usable), FILE_READ)? {
        return Ok(denied(FILE_READ, operation.caller.number));
    }
    let bytes = part(bytes, offset, most);
    let alloc = operation.caller.alloc;
    let kept = Piece::of(alloc, bytes)?;
    let told = Piece::of(alloc, bytes)?;
    Ok(Doubled::of(FileReply::Bytes(kept), FileReply::Bytes(told)))
}

/// At most `most` of the bytes from `offset` on.
#[inline(always)]
fn part(bytes: &[u8], offset: u32, most: u32) -> &[u8]
    ensures { result.now ≡ take most (drop offset bytes.now) }
{
    let start = bytes.len().min(offset as usize);
    let (_before, rest) = bytes.split_at(start);
    let (part, _behind) = rest.split_at(rest.len().min(most as usize));
    part
}
