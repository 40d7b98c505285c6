//! The rule of a gate: what the words of its table, the value in its slot and what each seat knows have to do with
//! one another between any two atomic steps.
//!
//! The table has 517 words: the gate word, the passes left of even and of odd policy numbers, the next ticket, the
//! ticket that is served, and 512 cache rows; and one slot with the value. Eleven kinds of step keep the rule; each
//! has one lemma in `proofs/`. The rule stands in `specs/Rule.antt`, part by part. This crate makes no step: the gate
//! over it does.
#![tactic(auto)]

mod journal;
mod plays;
mod view;

pub use journal::{Journal, Lawful, Place, Terms, Words};
pub use plays::{
    Count, Draw, Enter, FillRow, Give, Glance, Leave, LookRow, Make, Poll, Raise, Retire, Sought,
};
pub use view::{
    AdminView, Ended, Fixed, Item, Key, Pass, Rights, Role, StepDone, Ticket, Trace, View,
};
