//! What a seat knows. No value of these types is made: they stand in proofs alone.
use access_vectors::Class;
use std::collections::LinkedList;

/// What a seat is: given up, a caller's under its number, or the administrator's.
pub enum Role {
    Spent,
    Caller(u64),
    Admin,
}

/// No ticket, one that was drawn, or one that is served, which is having the turn. The number is the ticket's word.
pub enum Ticket {
    Without,
    Drawn(u64),
    Served(u64),
}

/// An atomic step: the word, the value found there and the value left there.
pub struct StepDone {
    pub word: u64,
    pub found: u64,
    pub left: u64,
}

/// How many steps a seat made, the last one and the one before it.
pub struct Trace {
    pub steps: u64,
    pub last: StepDone,
    pub earlier: StepDone,
}

/// A seat's pass: none, or one with its policy number and that number's version.
pub enum Pass {
    Out,
    Inside(u64, u64),
}

/// The pass that a seat has, and how many more it may enter.
pub struct Rights {
    pub pass: Pass,
    pub quota: u64,
}

/// The key of a cached answer.
pub struct Key {
    pub source: u64,
    pub target: u64,
    pub class: Class,
}

/// One turn of the administrator: the entry that it added, the count of older passes that it showed, and how many
/// slots were stale in the value taken and in the value given back.
pub struct Item<E> {
    pub entry: Option<E>,
    pub looked: Option<u64>,
    pub found: u64,
    pub left: u64,
}

/// A retired number, and the entries that it made.
pub struct Ended<E> {
    pub number: u64,
    pub entries: LinkedList<E>,
}

/// What the administrator knows.
pub struct AdminView<E> {
    /// How many seats it made.
    pub made: u64,
    pub ended: LinkedList<Ended<E>>,
    /// The current policy number and its version.
    pub newest: u64,
    pub version: u64,
    /// The passes entered under numbers of the other parity than the current one.
    pub counted: u64,
    /// No pass below this number is out, but for those below a forced number.
    pub clear: u64,
    /// The older passes that were shown in this turn.
    pub looked: Option<u64>,
    /// The stale slots of the value taken last, and of the value given back last.
    pub found: u64,
    pub left: u64,
    /// The policy number that each used slot followed in the value given back last, with the slot's place.
    pub given: LinkedList<(u64, u64)>,
    pub turns: LinkedList<Item<E>>,
}

/// What a gate fixes when it is made.
pub struct Fixed<D, O> {
    pub decider: D,
    pub opening: O,
    pub seats: u64,
    pub quota: u64,
    pub most: u64,
}

/// All that a seat knows.
pub struct View<E, D, O> {
    pub role: Role,
    pub ticket: Ticket,
    pub trace: Trace,
    pub rights: Rights,
    /// A history that was at hand when the seat last had the turn.
    pub seen: LinkedList<E>,
    /// The seat's own entries.
    pub mine: LinkedList<E>,
    /// The keys that it was served.
    pub served: LinkedList<Key>,
    /// The policy number that each used slot followed in the value that it took last, with the slot's place.
    pub follows: LinkedList<(u64, u64)>,
    pub admin_view: AdminView<E>,
    /// `None` once the seat is given up.
    pub fixed: Option<Fixed<D, O>>,
}
