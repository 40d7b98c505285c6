//! The calls, each by its row of the plain board.

ghost use Rattle.std.specs.FinMap as maps;
ghost use Rattle.access_vectors.specs.Stale.{slot_place};
ghost use Rattle.mode_questions.specs.Operations.{request};
ghost use Rattle.example_board.specs.PlainManager.{open_row, read_row, post_row, close_row, IsFormed};
ghost use Rattle.example_board.specs.Boards.{state_of, follows};
ghost use Rattle.example_board.specs.Serving.{MayServe, SaysThrough, ServesThrough, ServesSlots, ServesCall};

use crate::board::Board;
use crate::call::{BoardCall, BoardReply};
use crate::replies::{both, denied};
use crate::slots::held;
use access_vectors::perms::{FILE_READ, FILE_WRITE};
use access_vectors::{Asker, Perm, Vector};
use flask_sid::Memory;
use mode_questions::{Doubled, Operation};
use retained_rights::Callback;

/// The permissions of a mode, in the order in which they are asked.
const MODE_PERMS: [Perm; 2] = [FILE_READ, FILE_WRITE];

/// Serves a call by the row of its kind.
pub fn serve<F: Callback, A: Asker>(
    board: &mut Board<F>,
    operation: &mut Operation<A>,
    call: &BoardCall,
) -> Result<Doubled<BoardReply>, Memory>
    requires may { MayServe board.old (request operation.old) }
    requires formed { let r = request operation.old in IsFormed r.decisions (state_of board.old) r.client call.now }
    ensures { ServesCall call.now result board.old board.new operation.old operation.new }
{
    match *call {
        BoardCall::Open { slot, mode } => open(board, operation, slot, mode),
        BoardCall::Read { slot } => read(board, operation, slot),
        BoardCall::Post { slot, number } => post(board, operation, slot, number),
        BoardCall::Close { slot } => close(board, operation, slot),
    }
}

/// Opens the board through a free slot of the caller.
fn open<F: Callback, A: Asker>(
    board: &mut Board<F>,
    operation: &mut Operation<A>,
    slot: u8,
    mode: Vector,
) -> Result<Doubled<BoardReply>, Memory>
    requires { MayServe board.old (request operation.old) }
    ensures { let r = request operation.old in let place = slot_place r.client slot in
        ServesSlots (maps.insert (follows board.old) place r.number) result board.old board.new operation.old operation.new
        (open_row r (state_of board.old) place mode) }
{
    let caller = operation.caller;
    if let Some(_usable) = board.slot_use(caller.client, slot) {
        return Ok(both(BoardReply::SlotUsed));
    }
    let s = caller.subject;
    if let Some(perm) = operation.ask_mode(s, board.label(), mode, &MODE_PERMS)? {
        return Ok(denied(perm, caller.number));
    }
    board.fill(caller.client, slot, s, mode, caller.number, operation.asker)?;
    Ok(both(BoardReply::Done))
}

/// Reads the number on the board through a slot of the caller.
fn read<F: Callback, A: Asker>(
    board: &Board<F>,
    operation: &mut Operation<A>,
    slot: u8,
) -> Result<Doubled<BoardReply>, Memory>
    requires { MayServe board.now (request operation.old) }
    ensures { let r = request operation.old in let place = slot_place r.client slot in
        SaysThrough place result board.now operation.old operation.new (read_row r (state_of board.now) place) }
{
    let Some(usage) = held(board, operation, slot) else {
        return Ok(both(BoardReply::BadSlot));
    };
    if !usage.mode.has(FILE_READ.index()) {
        return Ok(both(BoardReply::BadMode));
    }
    if !operation.ask_use(usage, FILE_READ)? {
        return Ok(denied(FILE_READ, operation.caller.number));
    }
    Ok(both(BoardReply::Number(board.posted())))
}

/// Puts another number on the board through a slot of the caller.
fn post<F: Callback, A: Asker>(
    board: &mut Board<F>,
    operation: &mut Operation<A>,
    slot: u8,
    posted: u32,
) -> Result<Doubled<BoardReply>, Memory>
    requires { MayServe board.old (request operation.old) }
    ensures { let r = request operation.old in let place = slot_place r.client slot in
        ServesThrough place result board.old board.new operation.old operation.new (post_row r (state_of board.old) place posted) }
{
    let Some(usage) = held(board, operation, slot) else {
        return Ok(both(BoardReply::BadSlot));
    };
    if !usage.mode.has(FILE_WRITE.index()) {
        return Ok(both(BoardReply::BadMode));
    }
    if !operation.ask_use(usage, FILE_WRITE)? {
        return Ok(denied(FILE_WRITE, operation.caller.number));
    }
    board.set_posted(posted);
    Ok(both(BoardReply::Done))
}

/// Frees a slot of the caller.
fn close<F: Callback, A: Asker>(
    board: &mut Board<F>,
    operation: &Operation<A>,
    slot: u8,
) -> Result<Doubled<BoardReply>, Memory>
    requires { MayServe board.old (request operation.now) }
    ensures { let place = slot_place operation.now.caller.now.client slot in
        ServesSlots (maps.remove (follows board.old) place) result board.old board.new operation.now operation.now
        (close_row (state_of board.old) place) }
{
    let client = operation.caller.client;
    let Some(_usable) = board.slot_use(client, slot) else {
        return Ok(both(BoardReply::BadSlot));
    };
    board.free(client, slot);
    Ok(both(BoardReply::Done))
}
