//! What the slots of a caller hold.

ghost use Rattle.std.specs.Prelude.{MatchOption};
ghost use Rattle.mode_questions.specs.Operations.{request};
ghost use Rattle.example_board.specs.Boards.{IsFree};
ghost use Rattle.example_board.specs.Serving.{MayServe, IsHeld};

use crate::board::Board;
use access_vectors::Asker;
use mode_questions::{Operation, SlotUse};
use retained_rights::Callback;

/// What a slot of the caller gives.
pub fn held<F: Callback, A: Asker>(
    board: &Board<F>,
    operation: &Operation<A>,
    slot: u8,
) -> Option<SlotUse>
    requires { MayServe board.now (request operation.now) }
    ensures { let r = request operation.now in MatchOption result (IsFree board.now r.client slot) (λ usage. IsHeld r board.now slot usage) }
{
    let usable = board.slot_use(operation.caller.client, slot)?;
    Some(SlotUse {
        t: usable.t,
        mode: usable.mode,
        bits: usable.bits,
        number: usable.number,
    })
}
