//! A right that a slot holds, and what it lets its client do.

use access_vectors::Vector;
use flask_sid::Sid;

/// A right that a slot holds: a mode on an object, for the pair of the client's identifier and the object's label. `bits`
/// is what of the mode is usable, and `number` the policy number under which the bits were got last.
#[derive(Clone, Copy, Debug)]
pub struct Grant {
    pub object: u32,
    pub s: Sid,
    pub t: Sid,
    pub mode: Vector,
    pub bits: Vector,
    pub number: u32,
}

/// What a slot lets its client do: its object, pair and mode, the usable bits, and the policy number that they follow.
#[derive(Clone, Copy, Debug)]
pub struct Usable {
    pub object: u32,
    pub s: Sid,
    pub t: Sid,
    pub mode: Vector,
    pub bits: Vector,
    pub number: u32,
}

/// Why a grant is not added: its slot holds one, or memory is wanted.
#[derive(Clone, Copy, Debug, PartialEq, Eq)]
pub enum AddFault {
    SlotUsed,
    Memory,
}
