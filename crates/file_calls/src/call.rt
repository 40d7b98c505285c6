//! The calls of the file manager, and its replies.

use crate::path::FilePath;
use access_vectors::{Perm, Vector};
use flask_sid::{Piece, Rows, Sid};

/// A call of the file manager. Slots are 0 to 63, each client's own.
#[derive(Debug, Drop)]
pub enum FileCall {
    /// Makes an empty directory.
    Mkdir {
        path: FilePath,
    },
    /// Makes an empty file.
    Create {
        path: FilePath,
    },
    /// Opens the file of a path into a free slot, with a mode of the permissions read, write and append.
    OpenFile {
        slot: u8,
        path: FilePath,
        mode: Vector,
    },
    /// Reads at most `length` bytes of a slot's file, from `offset` on.
    ReadFile {
        slot: u8,
        offset: u32,
        length: u32,
    },
    /// Writes a piece over a slot's file, from `offset` on.
    WriteFile {
        slot: u8,
        offset: u32,
        piece: Piece,
    },
    /// Adds a piece at the end of a slot's file.
    AppendFile {
        slot: u8,
        piece: Piece,
    },
    /// Frees a slot.
    CloseFile {
        slot: u8,
    },
    /// Takes a file, or a directory without entries, out of its directory.
    Unlink {
        path: FilePath,
    },
    /// The names in a directory, without the first `skip` of them, and at most 16.
    List {
        path: FilePath,
        skip: u32,
    },
    /// Label and size of what stands at a path.
    StatFile {
        path: FilePath,
    },
    /// Gives what stands at a path another label.
    Relabel {
        path: FilePath,
        sid: Sid,
    },
    /// Lets a slot of a client hold what the caller's slot holds.
    Give {
        slot: u8,
        client: u8,
        target: u8,
    },
}

/// What a call of the file manager answers.
#[derive(Debug, Drop)]
pub enum FileReply {
    Done,
    Bytes(Piece),
    Names(Rows<Piece>),
    /// The label, and of a file how many bytes it has, of a directory how many entries the caller sees.
    Stat { sid: Sid, number: u64 },
    /// The first permission that was missing, under this policy number.
    Denied { perm: Perm, policy: u32 },
    NotFound,
    NotDir,
    IsDir,
    Exists,
    NotEmpty,
    BadSlot,
    SlotUsed,
    BadMode,
    TooBig,
    TooMany,
}
