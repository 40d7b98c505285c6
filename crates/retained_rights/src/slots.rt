//! Walks over the slots: those on an object, and the stale ones.

ghost use Rattle.std.specs.Prelude.{◌≡◌, ℕ, ◌+◌, ◌≤◌, ◌&&◌, not, true, Some, min, length, take, drop, IsTrue};
ghost use Rattle.std.specs.FinMap as maps;
ghost use Rattle.access_vectors.specs.Phases.{version_at, number_of, is_pending, MayName, AreVersions};
ghost use Rattle.access_vectors.specs.Stale.{is_stale_pair};
ghost use Rattle.slot_tables.specs.Words.{holds, places};
ghost use Rattle.retained_rights.specs.Rights;
ghost use Rattle.retained_rights.specs.Rights.{is_on, without_object, all_moved, all_revised};
ghost use Rattle.retained_rights.specs.Good.{IsGood};
ghost use Rattle.retained_rights.specs.Stored.{AreListed, HaveRows, IsNextGrant, IsNextDue};

use crate::grant::Grant;
use crate::rule::Callback;
use crate::ruled::Ruled;
use crate::store::Store;
use access_vectors::{Asker, Class, Decider, Phase, Steps, Vector};
use flask_sid::Sid;
use std::sync::ledger::Ledger;

/// The policy number that bits follow which were got under a number.
pub(crate) fn followed(phase: Phase, number: u32) -> u32
    ensures { result ≡ Rights.followed phase number }
{
    match phase {
        Phase::Settled { number, .. } => number,
        Phase::Pending {
            number: pending,
            ..
        } => {
            if number == pending {
                pending
            } else {
                pending.saturating_sub(1)
            }
        }
    }
}

/// Whether a slot on the pair is stale, whose bits follow a number under which the vector is this.
pub(crate) fn becomes_stale<A: Asker>(
    phase: Phase,
    class: Class,
    s: Sid,
    t: Sid,
    number: u32,
    v: Vector,
    asker: &mut A,
) -> bool
    requires source { IsTrue ((A.decides asker.old).known s) }
    requires target { IsTrue ((A.decides asker.old).known t) }
    requires versions { AreVersions (A.decides asker.old).versions phase }
    requires named { MayName phase number }
    requires vector { v ≡ (A.decides asker.old).vector (version_at phase number) s t class }
    ensures stale { result ≡ is_stale_pair (A.decides asker.old) class phase (Some (record { source = s; target = t })) (Some (Rights.followed phase number)) }
    ensures keys { A.keys asker.new ≡ A.keys asker.old }
    ensures same { A.same asker.old asker.new }
    ensures decides { A.decides asker.new ≡ A.decides asker.old }
    ensures at_version { A.version asker.new ≡ A.version asker.old }
{
    match phase {
        Phase::Settled { .. } => false,
        Phase::Pending {
            number: pending,
            new,
            ..
        } => {
            if number == pending {
                return false;
            }
            v.bits() != asker.vector_at(new, s, t, class).bits()
        }
    }
}

// The first slot from a bound on that holds the object, with its grant.
fn next_on(store: &Store, object: u32, from: u32) -> Option<(u32, Grant)>
    ensures { IsNextGrant store.now.held (λ place. is_on object (maps.get store.now.held place)) from result }
{
    let place = store.next_on(object, from)?;
    let grant = store.get(place)?;
    Some((place, grant))
}

// The first stale slot from a bound on, with its grant, if some more are to be taken.
fn next_due(store: &Store, from: u32, left: u64) -> Option<(u32, Grant)>
    requires { AreListed store.now.held store.now.words }
    ensures { IsNextDue store.now.held (holds store.now.words) from left result }
{
    if left == 0 {
        return None;
    }
    if store.left() == 0 {
        return None;
    }
    let place = store.next_stale(from)?;
    let grant = store.get(place)?;
    Some((place, grant))
}

/// Gives every grant on the object another label and its bits anew under a number. The index by pair has rows for it.
pub(crate) fn move_all<F: Callback, A: Asker>(
    store: &mut Store,
    ruled: &Ruled<F>,
    phase: Phase,
    class: Class,
    object: u32,
    t: Sid,
    number: u32,
    asker: &mut A,
)
    requires good { IsGood (A.decides asker.old) ruled.now class phase store.old.held store.old.words }
    requires target { IsTrue ((A.decides asker.old).known t) }
    requires rows { HaveRows store.old.held store.old.pairs object t }
    requires named { MayName phase number }
    requires version { A.version asker.old ≡ version_at phase number }
    ensures held { store.new.held ≡ all_moved (A.decides asker.old) ruled.now class (A.version asker.old) object t number store.old.held }
    ensures good { IsGood (A.decides asker.old) ruled.now class phase store.new.held store.new.words }
    ensures keys { A.keys asker.new ≡ A.keys asker.old }
    ensures same { A.same asker.old asker.new }
    ensures decides { A.decides asker.new ≡ A.decides asker.old }
    ensures at_version { A.version asker.new ≡ A.version asker.old }
{
    let version = asker.version();
    let mut from = 0;
    while let Some((place, was)) = next_on(store, object, from) {
        let Grant { s, mode, .. } = was;
        let v = asker.vector_at(version, s, t, class);
        let is_stale = becomes_stale(phase, class, s, t, number, v, asker);
        store.replace(place, was, t, ruled.bits(mode, v), number, is_stale);
        from = place + 1;
    }
}

/// Lets the first `k` stale slots, or all where they are fewer, follow the pending number. One tick of `steps` for each of
/// them.
pub(crate) fn revise_first<F: Callback, D: Decider, L: Ledger>(
    store: &mut Store,
    ruled: &Ruled<F>,
    phase: Phase,
    class: Class,
    decider: &D,
    k: u64,
    steps: &mut Steps<L>,
)
    requires good { IsGood (D.decides decider.now) ruled.now class phase store.old.held store.old.words }
    requires pending { is_pending phase ≡ true }
    ensures stale { places store.new.words ≡ drop k (places store.old.words) }
    ensures held { store.new.held ≡ all_revised (D.decides decider.now) ruled.now class (version_at phase (number_of phase)) (number_of phase)
        (take k (places store.old.words)) store.old.held }
    ensures good { IsGood (D.decides decider.now) ruled.now class phase store.new.held store.new.words }
    ensures cost { steps.new ≡ steps.old + min k (length (places store.old.words)) }
{
    let number = phase.number();
    let version = phase.version_at(number);
    let mut from = 0;
    let mut left = k;
    while let Some((place, was)) = next_due(store, from, left) {
        steps.tick();
        let Grant { s, t, mode, .. } = was;
        let v = decider.vector(version, s, t, class);
        store.refresh(place, was, ruled.bits(mode, v), number);
        from = place + 1;
        left -= 1;
    }
}

/// Frees every slot that holds the object.
pub(crate) fn drop_all(store: &mut Store, object: u32)
    ensures held { store.new.held ≡ without_object object store.old.held }
    ensures stale { (q : ℕ) → holds store.new.words q ≡ (not (is_on object (maps.get store.old.held q)) && holds store.old.words q) }
{
    let mut from = 0;
    while let Some((place, _)) = next_on(store, object, from) {
        let _ = store.free(place);
        from = place + 1;
    }
}
