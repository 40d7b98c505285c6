//! The replies, each once for the history and once for the caller.

ghost use Rattle.std.specs.Prelude.{◌≡◌};
ghost use Rattle.example_board.specs.declared.call.BoardReply.{BoardReply};

use crate::call::BoardReply;
use access_vectors::Perm;
use mode_questions::Doubled;

/// A reply.
pub fn both(reply: BoardReply) -> Doubled<BoardReply>
    ensures { result ≡ reply }
{
    let kept = reply;
    Doubled::of(kept, reply)
}

/// The reply of a denied call.
pub fn denied(perm: Perm, policy: u32) -> Doubled<BoardReply>
    ensures { result ≡ BoardReply.Denied perm policy }
{
    both(BoardReply::Denied { perm, policy })
}
