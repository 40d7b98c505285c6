//! A plain judge of a board's history: it walks the entries, keeps no cache and no rights, and asks for each use the version of the
//! entry's own policy number.

ghost use Rattle.std.specs.Prelude.{◌<◌};

use access_vectors::perms::{FILE_READ, FILE_WRITE};
use access_vectors::{Asked, Perm};
use example_board::{BoardCall, BoardReply};
use flask_sid::Sid;
use manager_history::Entry;
use std::alloc::{AllocError, Global};

/// Where the plain board stands behind some entries: the version of each policy number, the settled one, the number on the board, and of each
/// client the mode of slot 0, which is 0 where the slot is free, and how many calls it made; and how often a call had another policy number than
/// the one before it.
#[derive(Drop)]
pub struct PlainBoard {
    versions: Vec<u8>,
    pub settled: u32,
    posted: u32,
    modes: [u16; 2],
    pub calls: [u32; 2],
    last: u32,
    pub moves: u32,
}

/// Whose operation an entry is, with the caller's mark of it and the policy number.
#[derive(Clone, Copy, Debug)]
struct Done {
    caller: u8,
    mark: u32,
    number: u32,
}

/// Whether a version allows a permission: version 0 everything, and version 1 all but reading.
fn allows(version: u8, perm: Perm) -> bool {
    version == 0 || perm != FILE_READ
}

/// The denial of a permission under a number and its version, if it is denied.
fn denial(perm: Perm, under: (u32, u8)) -> Option<BoardReply> {
    let (policy, version) = under;
    if allows(version, perm) {
        None
    } else {
        Some(BoardReply::Denied { perm, policy })
    }
}

/// Why a slot of a mode may not be used for a permission, if it may not.
fn refusal(mode: u16, perm: Perm, under: (u32, u8)) -> Option<BoardReply> {
    if mode == 0 {
        return Some(BoardReply::BadSlot);
    }
    if !has(mode, perm) {
        return Some(BoardReply::BadMode);
    }
    denial(perm, under)
}

/// Whether a mode has reading or writing.
fn has(mode: u16, perm: Perm) -> bool {
    if perm == FILE_READ {
        mode % 2 == 1
    } else {
        mode / 2 % 2 == 1
    }
}

/// Why a slot may not be opened with a mode, if it may not: the first permission of it that is denied.
fn shut(mode: u16, under: (u32, u8)) -> Option<BoardReply> {
    for perm in &[FILE_READ, FILE_WRITE] {
        if has(mode, *perm) {
            if let Some(denied) = denial(*perm, under) {
                return Some(denied);
            }
        }
    }
    None
}

/// The slot of a call.
fn slot_of(call: &BoardCall) -> u8 {
    match *call {
        BoardCall::Open { slot, .. }
        | BoardCall::Read { slot }
        | BoardCall::Post { slot, .. }
        | BoardCall::Close { slot } => slot,
    }
}

/// The plain board's question about a permission, with a version's answer: a client and the board have one identifier.
fn question_of(perm: Perm, version: u8) -> Asked {
    let s = Sid::of(1).unwrap();
    Asked {
        s,
        t: s,
        perm,
        yes: allows(version, perm),
    }
}

/// Whether these are the plain board's questions about a mode: one for each permission of it, in order, up to the first no, and no other.
fn are_plain(asked: &[Asked], mode: u16, version: u8) -> bool {
    let mut rest = asked;
    for perm in &[FILE_READ, FILE_WRITE] {
        if has(mode, *perm) {
            let [question, others @ ..] = rest else {
                return false;
            };
            if *question != question_of(*perm, version) {
                return false;
            }
            rest = others;
            if !question.yes {
                break;
            }
        }
    }
    rest.is_empty()
}

impl PlainBoard {
    /// The board as it was opened.
    fn opened(alloc: Global) -> Result<PlainBoard, AllocError> {
        let mut versions = Vec::new(alloc);
        versions.push(0)?;
        Ok(PlainBoard {
            versions,
            settled: 0,
            posted: 0,
            modes: [0; 2],
            calls: [0; 2],
            last: 0,
            moves: 0,
        })
    }

    /// Opens a client's free slot.
    fn open(&mut self, client: usize, mode: u16, under: (u32, u8)) -> BoardReply
        requires { client < 2 }
    {
        if self.modes[client] != 0 {
            return BoardReply::SlotUsed;
        }
        if let Some(denied) = shut(mode, under) {
            return denied;
        }
        self.modes[client] = mode;
        BoardReply::Done
    }

    /// Frees a client's slot.
    fn close(&mut self, client: usize) -> BoardReply
        requires { client < 2 }
    {
        if self.modes[client] == 0 {
            return BoardReply::BadSlot;
        }
        self.modes[client] = 0;
        BoardReply::Done
    }

    /// The mode that a client's call asks about: of an opening its own, where the slot is free; of a use its permission, where the slot's mode
    /// has it.
    fn asks(&self, client: usize, call: &BoardCall) -> u16
        requires { client < 2 }
    {
        let held = self.modes[client];
        match *call {
            BoardCall::Open { mode, .. } if held == 0 => mode.bits(),
            BoardCall::Read { .. } => held & 1,
            BoardCall::Post { .. } => held & 2,
            _ => 0,
        }
    }

    /// The plain reply to a client's call under a number and its version.
    fn reply(&mut self, client: usize, call: &BoardCall, under: (u32, u8)) -> BoardReply
        requires { client < 2 }
    {
        match *call {
            BoardCall::Open { mode, .. } => self.open(client, mode.bits(), under),
            BoardCall::Close { .. } => self.close(client),
            BoardCall::Read { .. } => match refusal(self.modes[client], FILE_READ, under) {
                Some(refused) => refused,
                None => BoardReply::Number(self.posted),
            },
            BoardCall::Post { number, .. } => match refusal(self.modes[client], FILE_WRITE, under) {
                Some(refused) => refused,
                None => {
                    self.posted = number;
                    BoardReply::Done
                }
            },
        }
    }

    /// Whether an operation is lawful here: it is its client's next one, through slot 0, under a number that is not below the settled one,
    /// with the questions, their answers and the reply of the plain board.
    fn does(&mut self, done: Done, call: &BoardCall, asked: &[Asked], said: &BoardReply) -> bool {
        let Done {
            caller,
            mark,
            number,
        } = done;
        if caller > 1 || slot_of(call) != 0 || number < self.settled {
            return false;
        }
        let client = usize::from(caller);
        if mark != self.calls[client] {
            return false;
        }
        self.calls[client] = mark.wrapping_add(1);
        if number != self.last {
            self.moves = self.moves.wrapping_add(1);
        }
        self.last = number;
        let Some(version) = self.version(number) else {
            return false;
        };
        let mode = self.asks(client, call);
        let plain = self.reply(client, call, (number, version));
        are_plain(asked, mode, version) && plain == *said
    }

    /// The version of a policy number, if there was a notice of it.
    fn version(&self, number: u32) -> Option<u8> {
        self.versions.as_slice().get(number as usize).copied()
    }

    /// Whether a notice is lawful here: nothing is pending, and its number is the next one.
    fn notice(&mut self, number: u32, version: u8) -> Result<bool, AllocError> {
        let next = self.versions.len();
        self.versions.push(version)?;
        Ok(number as usize == next && number == self.settled.wrapping_add(1))
    }

    /// Whether an acknowledgement is lawful here: its number is pending.
    fn acknowledge(&mut self, number: u32) -> bool {
        let pending = (number as usize) < self.versions.len()
            && number == self.settled.wrapping_add(1);
        self.settled = number;
        pending
    }

    /// Whether an entry is lawful here. No call is aborted, and no acknowledgement forced.
    fn takes(&mut self, entry: &Entry<BoardCall, BoardReply>) -> Result<bool, AllocError> {
        match entry {
            Entry::Op {
                caller,
                mark,
                call,
                number,
                asked,
                reply,
            } => {
                let done = Done {
                    caller: *caller,
                    mark: *mark,
                    number: *number,
                };
                Ok(self.does(done, call, asked.as_slice(), reply))
            }
            Entry::Notice { number, version } => self.notice(*number, *version),
            Entry::Ack { number } => Ok(self.acknowledge(*number)),
            Entry::Aborted { .. } | Entry::Forced { .. } => Ok(false),
        }
    }
}

/// The plain board behind a history, or `None` where some entry of it is not lawful.
pub fn judged(
    alloc: Global,
    history: &[Entry<BoardCall, BoardReply>],
) -> Result<Option<PlainBoard>, AllocError> {
    let mut plain = PlainBoard::opened(alloc)?;
    for entry in history {
        if !plain.takes(entry)? {
            return Ok(None);
        }
    }
    Ok(Some(plain))
}
