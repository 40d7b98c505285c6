//! What the process manager is asked, and what it answers.

use access_vectors::Perm;
use flask_sid::Sid;

/// A call of the process manager. Slots are 0 to 63, each client's own, and processes are numbered 1 to 65,535.
#[derive(Clone, Copy, Debug)]
pub enum ProcessCall {
    /// Starts a process as a child of the caller.
    Fork { pid: u32 },
    /// Gives a child of the caller the label that the policy has for a program with this one.
    Exec { pid: u32, sid: Sid },
    /// Sends a signal: 9 ends the process with code 137, and every other number is put into its register.
    Signal { pid: u32, number: u32 },
    /// Ends a child of the caller with a code.
    Exit { pid: u32, code: u32 },
    /// Takes a child of the caller that has ended away, and tells its code.
    Wait { pid: u32 },
    /// Attaches a free slot to a process.
    Attach { slot: u8, pid: u32 },
    /// Reads the register of a slot's process.
    Peek { slot: u8 },
    /// Writes the register of a slot's process.
    Poke { slot: u8, value: u32 },
    /// Frees a slot.
    Detach { slot: u8 },
    /// Label and register of a process.
    StatProcess { pid: u32 },
}

/// What a call of the process manager answers.
#[derive(Clone, Copy, Debug)]
pub enum ProcessReply {
    Done,
    Num(u32),
    /// The label, and the register.
    Stat { sid: Sid, number: u32 },
    /// The first permission that was missing, under this policy number.
    Denied { perm: Perm, policy: u32 },
    NoProcess,
    Exists,
    Ended,
    Running,
    NotChild,
    BadSlot,
    SlotUsed,
    TooMany,
}
