//! What each kind of step tells the seat that makes it.
ghost use Rattle.gate_rule.specs.declared.view.Key.{Key as RowKey};
ghost use Rattle.gate_rule.specs.Told.{enters, leaves, draws, polls, gives, raises, counts, sees_row, fills_row, glances};
ghost use Rattle.gate_rule.specs.Views.{with_seat, new_seat, with_ended, spent_seat};

use crate::journal::Journal;
use crate::view::View;
use access_vectors::Decider;
use atomic_table::{Join, Play, Split};
use std::marker::PhantomData;

/// Entering.
pub struct Enter;

impl<V: Journal<D>, D: Decider> Play<Option<V>, View<V::Entry, D, V::Opening>> for Enter {
    ghost then = { enters V.means D.decides };
}

/// Leaving.
pub struct Leave;

impl<V: Journal<D>, D: Decider> Play<Option<V>, View<V::Entry, D, V::Opening>> for Leave {
    ghost then = { leaves V.means D.decides };
}

/// Drawing a ticket.
pub struct Draw;

impl<V: Journal<D>, D: Decider> Play<Option<V>, View<V::Entry, D, V::Opening>> for Draw {
    ghost then = { draws V.means D.decides };
}

/// Looking at the ticket served.
pub struct Poll;

impl<V: Journal<D>, D: Decider> Play<Option<V>, View<V::Entry, D, V::Opening>> for Poll {
    ghost then = { polls V.means D.decides };
}

/// Passing the turn on.
pub struct Give;

impl<V: Journal<D>, D: Decider> Play<Option<V>, View<V::Entry, D, V::Opening>> for Give {
    ghost then = { gives V.means D.decides };
}

/// Raising the number.
pub struct Raise;

impl<V: Journal<D>, D: Decider> Play<Option<V>, View<V::Entry, D, V::Opening>> for Raise {
    ghost then = { raises V.means D.decides };
}

/// Counting the older passes.
pub struct Count;

impl<V: Journal<D>, D: Decider> Play<Option<V>, View<V::Entry, D, V::Opening>> for Count {
    ghost then = { counts V.means D.decides };
}

/// The key that a look or a fill is about, which the call of the step picks.
pub trait Sought {
    ghost use Rattle.gate_rule.specs.declared.view.Key.{Key as RowKey};

    ghost sought: { RowKey };
}

impl Sought for std::marker::Brand {
    ghost use Rattle.access_vectors.specs.declared.class.Class.TheVariants.{File};

    ghost sought = { record { source = 1; target = 1; class = File } };
}

/// Looking at a row.
pub struct LookRow<K> {
    marker: PhantomData<K>,
}

impl<V: Journal<D>, D: Decider, K: Sought> Play<Option<V>, View<V::Entry, D, V::Opening>>
    for LookRow<K> {
    ghost then = { sees_row V.means D.decides K.sought };
}

/// Filling a row.
pub struct FillRow<K> {
    marker: PhantomData<K>,
}

impl<V: Journal<D>, D: Decider, K: Sought> Play<Option<V>, View<V::Entry, D, V::Opening>>
    for FillRow<K> {
    ghost then = { fills_row V.means D.decides K.sought };
}

/// A glance at the gate word.
pub struct Glance;

impl<V: Journal<D>, D: Decider> Play<Option<V>, View<V::Entry, D, V::Opening>> for Glance {
    ghost then = { glances V.means D.decides };
}

/// Making a seat.
pub struct Make;

impl<E, D, O> Split<View<E, D, O>> for Make {
    ghost left = { with_seat };

    ghost right = { new_seat };
}

/// Retiring a seat.
pub struct Retire;

impl<E, D, O> Join<View<E, D, O>> for Retire {
    ghost both = { with_ended };

    ghost spent = { spent_seat };
}
