//! Which fault of a line is told where several of its words are faulty: the kinds of fault have an order.

ghost use Rattle.std.specs.Prelude.{◌≡◌, Result};
ghost use Rattle.text_lines.specs.declared.fault.FaultKind.{FaultKind};
ghost use Rattle.text_lines.specs.Refusals.{Gives};
ghost use Rattle.session_forms.specs.FirstFaults;

use text_lines::{FaultKind, Refusal};

/// The one of two kinds that comes first in the order of kinds.
#[tactic(auto, unfolding(crate::specs::FirstFaults::first_kind))]
pub fn first_kind(one: FaultKind, other: FaultKind) -> FaultKind
    ensures { result ≡ FirstFaults.first_kind one other }
{
    if kind_place(other) < kind_place(one) {
        other
    } else {
        one
    }
}

fn kind_place(kind: FaultKind) -> u8
    ensures { result ≡ FirstFaults.kind_place kind }
{
    match kind {
        FaultKind::Syntax => 0,
        FaultKind::Order => 1,
        FaultKind::Limit => 2,
        FaultKind::Unknown => 3,
        FaultKind::Undeclared => 4,
        FaultKind::Twice => 5,
        FaultKind::Ended => 6,
    }
}

/// Both values, or the kind of fault that comes first.
#[inline(always)]
pub fn both<A: Drop, B: Drop>(
    one: Result<A, FaultKind>,
    other: Result<B, FaultKind>,
) -> Result<(A, B), FaultKind>
    ensures { result ≡ FirstFaults.both one other }
{
    match (one, other) {
        (Ok(one), Ok(other)) => Ok((one, other)),
        (Ok(_one), Err(kind)) => Err(kind),
        (Err(kind), Ok(_other)) => Err(kind),
        (Err(kind), Err(other)) => Err(first_kind(kind, other)),
    }
}

/// The value, or the line's refusal for this kind of fault.
#[inline(always)]
pub fn judged<A>(value: Result<A, FaultKind>) -> Result<A, Refusal>
    ensures { Gives result value }
{
    match value {
        Ok(value) => Ok(value),
        Err(kind) => Err(Refusal::Fault(kind)),
    }
}

/// Both values, or why there are not both: the kind of fault that is asked first, or want of memory.
#[inline(always)]
pub fn both_made<A: Drop, B: Drop>(
    one: Result<A, FaultKind>,
    made: Result<B, Refusal>,
) -> Result<(A, B), Refusal>
    ensures { (said : Result B FaultKind) → Gives made said → Gives result (FirstFaults.both one said) }
{
    match (one, made) {
        (Ok(one), Ok(made)) => Ok((one, made)),
        (Ok(_one), Err(refusal)) => Err(refusal),
        (Err(kind), Ok(_made)) => Err(Refusal::Fault(kind)),
        (Err(kind), Err(Refusal::Fault(other))) => Err(Refusal::Fault(first_kind(kind, other))),
        (Err(_kind), Err(Refusal::Memory)) => Err(Refusal::Memory),
    }
}
