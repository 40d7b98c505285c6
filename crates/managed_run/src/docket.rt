//! What lies at a station's gate: a keeper, and its core as it was at the opening.

use access_vectors::Decider;
use gate_rule::Journal;
use manager_history::{Core, Entry, Keeper};
use std::snapshot::Snapshot;

/// What a station was opened with: a core, and the manager's number. No value of it is made: it stands in proofs alone.
pub struct Opened<C> {
    pub core: C,
    pub manager: u8,
}

/// A keeper, and what it began with.
#[derive(Drop)]
pub struct Docket<K, S> {
    pub keeper: K,
    pub first: S,
}

/// A keeper, and its core as it was at the opening, in a box: so a turn moves two words. It has the decider beside them, which shows how long what
/// is in the box lives.
#[derive(Drop)]
pub struct CoreDocket<'d, C: Core, D: Decider> {
    pub kept: Box<Docket<Keeper<'d, C, D>, Snapshot<C>>>,
    pub decider: &'d D,
}

/// The history is the keeper's, which is lawful from the opening under the decider.
impl<'d, C: Core + Drop, D: Decider> Journal<D> for CoreDocket<'d, C, D> {
    ghost use Rattle.std.proofs.Common.{sym, ap, subst, ◌∙◌};
    ghost use Rattle.access_vectors.specs.Stale.{AreNamed, stale_slots};
    ghost use Rattle.access_vectors.specs.declared.phase.Phase.{Phase};
    ghost use Rattle.manager_history.specs.Histories.{start_of, IsLawful};
    ghost use Rattle.managed_run.specs.Kinds.{kind_of};
    ghost use Rattle.managed_run.specs.Dockets.{IsFrom};
    ghost use Rattle.managed_run.specs.Laws.{alternates_lawful};

    type Entry = Entry<C::Call, C::Reply>;

    type Opening = Opened<C>;

    ghost means = { record {
      history = λ docket. docket.kept.value.keeper.history;
      kind = kind_of;
      opening = λ docket. record { core = docket.kept.value.first.value; manager = docket.kept.value.keeper.manager };
      decider = λ docket. docket.kept.value.keeper.decider;
      promise = λ opening decider log. IsLawful C.plain C.formed (D.decides decider) (start_of (C.opening opening.core)) log;
      keeps = λ docket. IsFrom C.plain (D.decides docket.kept.value.keeper.decider) C.class C.pair_of C.opening C.state C.follows C.stale docket.kept.value.first.value docket.kept.value.keeper;
      class = C.class;
      pair_of = λ docket. C.pair_of (C.state docket.kept.value.keeper.core);
      follows = λ docket. C.follows docket.kept.value.keeper.core;
      stale = λ docket. C.stale docket.kept.value.keeper.core;
    } };

    ghost alternates = { λ opening decider log promised. alternates_lawful C.plain C.formed (D.decides decider) (C.opening opening.core) log promised };

    ghost are_named = { λ docket kept. subst (λ (phase : Phase). AreNamed phase (C.follows docket.kept.value.keeper.core)) kept.phase kept.named };

    ghost are_stale = { λ docket kept. kept.stale_is
        ∙ ap (λ (phase : Phase). stale_slots (D.decides docket.kept.value.keeper.decider) C.class phase (C.pair_of (C.state docket.kept.value.keeper.core)) (C.follows docket.kept.value.keeper.core)) kept.phase };
}
