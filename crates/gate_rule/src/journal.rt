//! What a gate needs to know of its value, and the table that keeps the rule.
use crate::view::View;
use access_vectors::Decider;
use atomic_table::{Seat, Shared, TableRule};
use std::snapshot::Snapshot;

/// A value that a gate can keep: it has a history, whose entries are calls of callers, notices and
/// acknowledgements, an opening and a decider that no turn changes, and slots. What its type promises of each history
/// has at least notices and acknowledgements in their order. What it promises of each value has at least that every
/// used slot follows a policy number that may be named, which is the settled one where nothing is pending, and that
/// the stale slots are those that follow the number before the pending one and on whose pair the two versions differ.
pub trait Journal<D: Decider>: Drop {
    ghost use Rattle.std.specs.Prelude.{◌≡◌, List};
    ghost use Rattle.access_vectors.specs.Stale.{AreNamed, stale_slots};
    ghost use Rattle.gate_rule.specs.Meaning.{Means};
    ghost use Rattle.gate_rule.specs.History.{Alternates, phase_in};

    type Entry;

    type Opening;

    ghost means: { Means Self Self.Entry D Self.Opening };

    ghost alternates: { (o : Self.Opening) (d : D) (log : List Self.Entry) → means.promise o d log → Alternates means.kind (D.decides d).versions 0 0 log };

    ghost are_named: { (value : Self) → means.keeps value → AreNamed (phase_in means.kind (means.history value)) (means.follows value) };

    ghost are_stale: { (value : Self) → means.keeps value → means.stale value ≡ stale_slots (D.decides (means.decider value)) means.class (phase_in means.kind (means.history value)) (means.pair_of value) (means.follows value) };
}

/// What the table is told once: decider, first value, and the numbers of seats, quota and most.
pub struct Terms<V, D> {
    pub decider: Snapshot<D>,
    pub first: Snapshot<V>,
    pub seats: u64,
    pub quota: u64,
    pub most: u64,
}

impl<V, D> Drop for Terms<V, D> {
    fn drop(self) {
        let Self {
            decider: _,
            first: _,
            seats: _,
            quota: _,
            most: _,
        } = self;
    }
}

/// The rule of the gate.
pub struct Lawful;

impl<V: Journal<D>, D: Decider> TableRule<Option<V>, View<V::Entry, D, V::Opening>, Terms<V, D>>
    for Lawful {
    ghost use Rattle.gate_rule.specs.Rule.{RuleHolds, fixed_of};
    ghost use Rattle.gate_rule.specs.Views.{first_seat};

    ghost holds = { λ k. RuleHolds V.means D.decides k };

    ghost first = { λ k. first_seat (fixed_of V.means k) };
}

/// The words and the slot, as threads share them.
pub type Words<V, D> = Shared<
    Option<V>,
    View<<V as Journal<D>>::Entry, D, <V as Journal<D>>::Opening>,
    Terms<V, D>,
    Lawful,
>;

/// A seat at the table.
pub type Place<V, D> = Seat<
    Option<V>,
    View<<V as Journal<D>>::Entry, D, <V as Journal<D>>::Opening>,
>;
