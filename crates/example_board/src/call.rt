//! What the board is asked, and what it answers.

use access_vectors::{Perm, Vector};

/// A call of the board. Slots are 0 to 63, each client's own.
#[derive(Clone, Copy, Debug)]
pub enum BoardCall {
    /// Opens the board through a free slot. The mode is a vector of the permissions read and write, one of them at least.
    Open { slot: u8, mode: Vector },
    /// Reads the number on the board.
    Read { slot: u8 },
    /// Puts another number on the board.
    Post { slot: u8, number: u32 },
    /// Frees a slot.
    Close { slot: u8 },
}

/// What a call of the board answers.
#[derive(Clone, Copy, Debug, PartialEq, Eq)]
pub enum BoardReply {
    Done,
    /// The number on the board.
    Number(u32),
    /// The permission that was missing, under this policy number.
    Denied { perm: Perm, policy: u32 },
    BadSlot,
    SlotUsed,
    /// The slot's mode has not the permission that the call needs.
    BadMode,
}
