//! Why a text is refused: its first faulty line and the kind of fault.

ghost use Rattle.std.specs.Prelude.{◌≡◌};
ghost use Rattle.text_lines.specs.declared.fault.Refusal.TheVariants as refusal;

use flask_sid::Memory;
use std::alloc::AllocError;
use thiserror::Error;

/// What is wrong with a line, in the order in which the kinds of one line are asked.
#[derive(Clone, Copy, Debug, PartialEq, Eq)]
pub enum FaultKind {
    /// A byte that may not stand, an unknown first word, a wrong number of words, a word not of its form.
    Syntax,
    /// The line may not stand at this place.
    Order,
    /// A number, a length or a count past its limit.
    Limit,
    /// A name that was not declared, or that a table lacks.
    Unknown,
    /// A context without a line that declares it.
    Undeclared,
    /// A second declaration.
    Twice,
    /// The text ends too early. The line is the one below the last.
    Ended,
}

/// Why one line is refused.
#[derive(Clone, Copy, Debug, PartialEq, Eq)]
pub enum Refusal {
    Fault(FaultKind),
    Memory,
}

impl From<Memory> for Refusal {
    ghost from_gives = { λ _ e. e ≡ refusal.Memory };

    fn from(_: Memory) -> Self {
        Refusal::Memory
    }
}

impl From<AllocError> for Refusal {
    ghost from_gives = { λ _ e. e ≡ refusal.Memory };

    fn from(_: AllocError) -> Self {
        Refusal::Memory
    }
}

/// Why a text is refused: its first faulty line, counted from 1, or want of memory.
#[derive(Clone, Copy, Debug, PartialEq, Eq, Error)]
pub enum TextFault {
    #[error("line {line}: {kind:?}")]
    Text { line: u32, kind: FaultKind },
    #[error("out of memory")]
    Memory,
}
