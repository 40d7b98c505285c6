//! What the port manager is asked, and what it answers.

use access_vectors::{Perm, Vector};
use flask_sid::{Piece, Sid};

/// A call of the port manager. Slots are 0 to 63, each client's own, and ports are numbered 1 to 65,535.
#[derive(Debug, Drop)]
pub enum PortCall {
    /// Binds a port to the caller through a free slot, with the mode name_bind, or name_bind and recv.
    Bind { slot: u8, port: u32, mode: Vector },
    /// Takes the oldest message that waits at a slot's port.
    Recv { slot: u8 },
    /// Connects a free slot to a port that is bound, with the mode connect, or send and connect.
    Connect { slot: u8, port: u32, mode: Vector },
    /// Sends a message to the port of a slot.
    Push { slot: u8, piece: Piece },
    /// Sends a message to a port without a slot.
    Send { port: u32, piece: Piece },
    /// Frees a slot, and with the slot that bound it the port.
    Unbind { slot: u8 },
    /// Label of a port, and how many messages wait there.
    StatPort { port: u32 },
}

/// What a call of the port manager answers.
#[derive(Debug, Drop)]
pub enum PortReply {
    Done,
    Bytes(Piece),
    /// The label, and how many messages wait.
    Stat { sid: Sid, number: u32 },
    /// The first permission that was missing, under this policy number.
    Denied { perm: Perm, policy: u32 },
    Taken,
    NoPort,
    BadSlot,
    SlotUsed,
    BadMode,
    Full,
    Empty,
    TooBig,
}
