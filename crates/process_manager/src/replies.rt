//! The replies, each once for the history and once for the caller.

ghost use Rattle.std.specs.Prelude.{◌≡◌};
ghost use Rattle.process_calls.specs.declared.call.ProcessReply.{ProcessReply};

use access_vectors::Perm;
use mode_questions::Doubled;
use process_calls::ProcessReply;

/// A reply.
pub fn both(reply: ProcessReply) -> Doubled<ProcessReply>
    ensures { result ≡ reply }
{
    let kept = reply;
    Doubled::of(kept, reply)
}

/// The reply of a denied call.
pub fn denied(perm: Perm, policy: u32) -> Doubled<ProcessReply>
    ensures { result ≡ ProcessReply.Denied perm policy }
{
    both(ProcessReply::Denied { perm, policy })
}
