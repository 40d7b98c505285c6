//! Why a command has no answer.

use flask_sid::Memory;
use std::alloc::{AllocError, AllocFailed};

/// Why a command has no answer.
#[derive(Drop)]
pub enum Stop {
    /// The words ask for what the policy has not: what is said of it.
    Usage(String),
    /// A word of the command is not UTF-8.
    NoWord,
    /// The text is no policy and no session: its first fault, explained.
    Refused(String),
    ReadFault,
    TooLarge,
    Memory,
}

impl From<Memory> for Stop {
    fn from(_: Memory) -> Self {
        Stop::Memory
    }
}

impl From<AllocError> for Stop {
    fn from(_: AllocError) -> Self {
        Stop::Memory
    }
}

impl<T: Drop> From<AllocFailed<T>> for Stop {
    fn from(_: AllocFailed<T>) -> Self {
        Stop::Memory
    }
}

impl Stop {
    /// The exit status: 2 for words, 3 for a text that is refused, and else what cannot be read.
    pub fn code(&self) -> u8 {
        match self {
            Stop::Usage(_) | Stop::NoWord => 2,
            Stop::Refused(_) => 3,
            Stop::ReadFault => 4,
            Stop::TooLarge => 6,
            Stop::Memory => 7,
        }
    }

    /// What is said of it on standard error.
    pub fn text(&self) -> &str {
        match self {
            Stop::Usage(text) => text.as_str(),
            Stop::Refused(text) => text.as_str(),
            Stop::NoWord => "a word of the command is not UTF-8",
            Stop::ReadFault => "the input cannot be read",
            Stop::TooLarge => "the input is larger than 4194304 bytes",
            Stop::Memory => "the memory ran out",
        }
    }
}
