//! The replies, each once for the history and once for the caller.

ghost use Rattle.std.specs.Prelude.{◌≡◌, true, IfOk};
ghost use Rattle.file_calls.specs.declared.call.FileReply.{FileReply};
ghost use Rattle.file_manager.specs.Serving.{is_short};
ghost use Rattle.file_manager.specs.Walking;

use crate::walks::Stop;
use access_vectors::Perm;
use file_calls::FileReply;
use flask_sid::{Memory, Piece, Rows};
use mode_questions::Doubled;
use std::alloc::Global;

/// A reply that holds neither bytes nor names.
#[inline(always)]
pub fn both(reply: FileReply) -> Doubled<FileReply>
    requires { is_short reply ≡ true }
    ensures { result ≡ reply }
{
    match reply {
        FileReply::Done => Doubled::of(FileReply::Done, FileReply::Done),
        FileReply::Stat { sid, number } => Doubled::of(
            FileReply::Stat { sid, number },
            FileReply::Stat { sid, number },
        ),
        FileReply::Denied { perm, policy } => Doubled::of(
            FileReply::Denied { perm, policy },
            FileReply::Denied { perm, policy },
        ),
        FileReply::NotFound => Doubled::of(FileReply::NotFound, FileReply::NotFound),
        FileReply::NotDir => Doubled::of(FileReply::NotDir, FileReply::NotDir),
        FileReply::IsDir => Doubled::of(FileReply::IsDir, FileReply::IsDir),
        FileReply::Exists => Doubled::of(FileReply::Exists, FileReply::Exists),
        FileReply::NotEmpty => Doubled::of(FileReply::NotEmpty, FileReply::NotEmpty),
        FileReply::BadSlot => Doubled::of(FileReply::BadSlot, FileReply::BadSlot),
        FileReply::SlotUsed => Doubled::of(FileReply::SlotUsed, FileReply::SlotUsed),
        FileReply::BadMode => Doubled::of(FileReply::BadMode, FileReply::BadMode),
        FileReply::TooBig => Doubled::of(FileReply::TooBig, FileReply::TooBig),
        FileReply::TooMany => Doubled::of(FileReply::TooMany, FileReply::TooMany),
        FileReply::Bytes(_bytes) => unreachable!(),
        FileReply::Names(_names) => unreachable!(),
    }
}

/// The reply of a denied call.
#[inline(always)]
pub fn denied(perm: Perm, policy: u32) -> Doubled<FileReply>
    ensures { result ≡ FileReply.Denied perm policy }
{
    both(FileReply::Denied { perm, policy })
}

/// The reply of a call whose walk stopped.
#[inline(always)]
pub fn stopped(stop: Stop) -> Doubled<FileReply>
    ensures { result ≡ Walking.said_of stop }
{
    match stop {
        Stop::NotFound => both(FileReply::NotFound),
        Stop::NotDir => both(FileReply::NotDir),
        Stop::Denied { perm, policy } => denied(perm, policy),
    }
}

/// Some names.
pub fn listed(alloc: Global, names: Rows<Piece>) -> Result<Doubled<FileReply>, Memory>
    ensures { IfOk result (λ reply. reply ≡ FileReply.Names names) }
{
    let mut kept = Rows::new(alloc);
    for name in names.as_slice() {
        kept.push(name.copy(alloc)?)?;
    }
    Ok(Doubled::of(FileReply::Names(kept), FileReply::Names(names)))
}
