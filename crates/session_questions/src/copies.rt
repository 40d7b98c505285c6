//! Replies, copied from a manager's history.

ghost use Rattle.std.specs.Prelude.{◌≡◌, IfOk};
ghost use Rattle.session_managers.specs.One.{got_answer};

use file_calls::FileReply;
use flask_sid::{Memory, Piece, Rows};
use manager_history::Answer;
use port_calls::PortReply;
use session_managers::{Got, Reply};
use std::alloc::Global;

/// A copy of what a call got.
pub(crate) fn answer(alloc: Global, got: Got<'_>) -> Result<Answer<Reply>, Memory>
    ensures { IfOk result (λ answer. answer ≡ got_answer got.entry) }
{
    Ok(Answer::Did(match got {
        Got::File(reply) => Reply::File(file_reply(alloc, reply)?),
        Got::Process(reply) => Reply::Process(*reply),
        Got::Port(reply) => Reply::Port(port_reply(alloc, reply)?),
        Got::Aborted => return Ok(Answer::Aborted),
    }))
}

fn file_reply(alloc: Global, reply: &FileReply) -> Result<FileReply, Memory>
    ensures { IfOk result (λ copy. copy ≡ reply.now) }
{
    Ok(match reply {
        FileReply::Done => FileReply::Done,
        FileReply::Bytes(bytes) => FileReply::Bytes(bytes.copy(alloc)?),
        FileReply::Names(names) => FileReply::Names(pieces(alloc, names.as_slice())?),
        FileReply::Stat { sid, number } => FileReply::Stat {
            sid: *sid,
            number: *number,
        },
        FileReply::Denied { perm, policy } => FileReply::Denied {
            perm: *perm,
            policy: *policy,
        },
        FileReply::NotFound => FileReply::NotFound,
        FileReply::NotDir => FileReply::NotDir,
        FileReply::IsDir => FileReply::IsDir,
        FileReply::Exists => FileReply::Exists,
        FileReply::NotEmpty => FileReply::NotEmpty,
        FileReply::BadSlot => FileReply::BadSlot,
        FileReply::SlotUsed => FileReply::SlotUsed,
        FileReply::BadMode => FileReply::BadMode,
        FileReply::TooBig => FileReply::TooBig,
        FileReply::TooMany => FileReply::TooMany,
    })
}

fn pieces(alloc: Global, names: &[Piece]) -> Result<Rows<Piece>, Memory>
    ensures { IfOk result (λ copy. copy ≡ names.now) }
{
    let mut copy = Rows::new(alloc);
    'names: for name in names {
        copy.push(name.copy(alloc)?)?;
    }
    Ok(copy)
}

fn port_reply(alloc: Global, reply: &PortReply) -> Result<PortReply, Memory>
    ensures { IfOk result (λ copy. copy ≡ reply.now) }
{
    Ok(match reply {
        PortReply::Done => PortReply::Done,
        PortReply::Bytes(bytes) => PortReply::Bytes(bytes.copy(alloc)?),
        PortReply::Stat { sid, number } => PortReply::Stat {
            sid: *sid,
            number: *number,
        },
        PortReply::Denied { perm, policy } => PortReply::Denied {
            perm: *perm,
            policy: *policy,
        },
        PortReply::Taken => PortReply::Taken,
        PortReply::NoPort => PortReply::NoPort,
        PortReply::BadSlot => PortReply::BadSlot,
        PortReply::SlotUsed => PortReply::SlotUsed,
        PortReply::BadMode => PortReply::BadMode,
        PortReply::Full => PortReply::Full,
        PortReply::Empty => PortReply::Empty,
        PortReply::TooBig => PortReply::TooBig,
    })
}
