//! Writing through a slot.

ghost use Rattle.std.specs.Prelude.{◌≡◌, ◌+◌, nat_lt};
ghost use Rattle.access_vectors.specs.Stale.{slot_place};
ghost use Rattle.mode_questions.specs.Operations.{request};
ghost use Rattle.file_calls.specs.Openings.{byte_limit};
ghost use Rattle.file_calls.specs.SlotCalls.{write_row, append_row};
ghost use Rattle.file_store.specs.Stores.{state_of};
ghost use Rattle.file_manager.specs.Serving.{MayServe, ServesThrough};

use crate::replies::{both, denied};
use crate::slots::usage_of;
use access_vectors::Asker;
use access_vectors::perms::{FILE_APPEND, FILE_WRITE};
use file_calls::FileReply;
use file_store::Files;
use flask_sid::Memory;
use mode_questions::{Doubled, Operation};
use retained_rights::Callback;

/// How many bytes a file may have.
const BYTE_LIMIT: usize = 65536;

/// Writes a piece over the file of a caller's slot, from `offset` on.
pub fn write<F: Callback, A: Asker>(
    files: &mut Files<F>,
    operation: &mut Operation<A>,
    slot: u8,
    offset: u32,
    piece: &[u8],
) -> Result<Doubled<FileReply>, Memory>
    requires { MayServe files.old (request operation.old) }
    ensures { let r = request operation.old in let place = slot_place r.client slot in
        ServesThrough place result files.old files.new operation.old operation.new (write_row r (state_of files.old) place offset piece.now) }
{
    let Some((usable, _bytes)) = files.held(operation.caller.client, slot) else {
        return Ok(both(FileReply::BadSlot));
    };
    if !usable.mode.has(FILE_WRITE.index()) {
        return Ok(both(FileReply::BadMode));
    }
    if !operation.ask_use(usage_of(&usable), FILE_WRITE)? {
        return Ok(denied(FILE_WRITE, operation.caller.number));
    }
    if is_too_big(offset as usize, piece.len()) {
        return Ok(both(FileReply::TooBig));
    }
    files.write(operation.caller.alloc, usable.object, offset, piece)?;
    Ok(both(FileReply::Done))
}

/// Adds a piece at the end of the file of a caller's slot.
pub fn append<F: Callback, A: Asker>(
    files: &mut Files<F>,
    operation: &mut Operation<A>,
    slot: u8,
    piece: &[u8],
) -> Result<Doubled<FileReply>, Memory>
    requires { MayServe files.old (request operation.old) }
    ensures { let r = request operation.old in let place = slot_place r.client slot in
        ServesThrough place result files.old files.new operation.old operation.new (append_row r (state_of files.old) place piece.now) }
{
    let Some((usable, bytes)) = files.held(operation.caller.client, slot) else {
        return Ok(both(FileReply::BadSlot));
    };
    if !usable.mode.has(FILE_APPEND.index()) {
        return Ok(both(FileReply::BadMode));
    }
    let size = bytes.len();
    if !operation.ask_use(usage_of(&usable), FILE_APPEND)? {
        return Ok(denied(FILE_APPEND, operation.caller.number));
    }
    if is_too_big(size, piece.len()) {
        return Ok(both(FileReply::TooBig));
    }
    files.append(operation.caller.alloc, usable.object, piece)?;
    Ok(both(FileReply::Done))
}

/// Whether a file would be too big with so many more bytes behind its first ones.
fn is_too_big(first: usize, more: usize) -> bool
    ensures { result ≡ nat_lt byte_limit (first + more) }
{
    first > BYTE_LIMIT || more > BYTE_LIMIT - first
}
