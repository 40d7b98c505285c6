//! The replies, each once for the history and once for the caller.

ghost use Rattle.std.specs.Prelude.{◌≡◌, true, IfOk};
ghost use Rattle.port_calls.specs.declared.call.PortReply.{PortReply};
ghost use Rattle.port_manager.specs.Serving.{is_short};

use access_vectors::Perm;
use flask_sid::{Memory, Piece};
use mode_questions::Doubled;
use port_calls::PortReply;
use std::alloc::Global;

/// A reply that holds no bytes.
pub fn both(reply: PortReply) -> Doubled<PortReply>
    requires { is_short reply ≡ true }
    ensures { result ≡ reply }
{
    match reply {
        PortReply::Done => Doubled::of(PortReply::Done, PortReply::Done),
        PortReply::Bytes(_bytes) => unreachable!(),
        PortReply::Stat { sid, number } => Doubled::of(
            PortReply::Stat { sid, number },
            PortReply::Stat { sid, number },
        ),
        PortReply::Denied { perm, policy } => Doubled::of(
            PortReply::Denied { perm, policy },
            PortReply::Denied { perm, policy },
        ),
        PortReply::Taken => Doubled::of(PortReply::Taken, PortReply::Taken),
        PortReply::NoPort => Doubled::of(PortReply::NoPort, PortReply::NoPort),
        PortReply::BadSlot => Doubled::of(PortReply::BadSlot, PortReply::BadSlot),
        PortReply::SlotUsed => Doubled::of(PortReply::SlotUsed, PortReply::SlotUsed),
        PortReply::BadMode => Doubled::of(PortReply::BadMode, PortReply::BadMode),
        PortReply::Full => Doubled::of(PortReply::Full, PortReply::Full),
        PortReply::Empty => Doubled::of(PortReply::Empty, PortReply::Empty),
        PortReply::TooBig => Doubled::of(PortReply::TooBig, PortReply::TooBig),
    }
}

/// The reply of a denied call.
pub fn denied(perm: Perm, policy: u32) -> Doubled<PortReply>
    ensures { result ≡ PortReply.Denied perm policy }
{
    both(PortReply::Denied { perm, policy })
}

/// A message.
pub fn bytes(alloc: Global, message: &Piece) -> Result<Doubled<PortReply>, Memory>
    ensures { IfOk result (λ reply. reply ≡ PortReply.Bytes message.now) }
{
    let kept = message.copy(alloc)?;
    let told = message.copy(alloc)?;
    Ok(Doubled::of(PortReply::Bytes(kept), PortReply::Bytes(told)))
}
