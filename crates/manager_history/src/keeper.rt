//! The keeper: a core with its history, which is lawful, and whose replay is the core's state.

ghost use Rattle.std.specs.Prelude.{◌≡◌, ◌+◌, ◌<◌, ◌≤◌, [], ◌∷◌, ◌++◌, vec_len, vec_capacity};

use crate::answers::{Ack, Answer};
use crate::core_trait::Core;
use crate::entry::{Entry, History};
use access_vectors::{Asker, Decider, NotifyFault, Phase, Questions, Receipt, Steps};
use flask_sid::Memory;
use std::alloc::Global;
use std::marker::Model;
use std::sync::ledger::Ledger;

/// Adds that a caller's call under a policy number was aborted, for which there is room.
#[inline(always)]
fn add_aborted<K: Drop, R: Drop>(
    entries: &mut Vec<Entry<K, R>>,
    caller: u8,
    mark: u32,
    call: K,
    number: u32,
)
    requires { vec_len entries.old < vec_capacity entries.old }
    ensures added { entries.new.items ≡ entries.old.items ++ Entry.Aborted caller mark call number ∷ [] }
    ensures len { vec_len entries.new ≡ vec_len entries.old + 1 }
    ensures room { vec_capacity entries.old ≤ vec_capacity entries.new }
{
    let entry = Entry::Aborted {
        caller,
        mark,
        call,
        number,
    };
    entries.push_reserved(entry);
}

/// A core with its history. Contracts see the core, the decider, the manager's number, the phase and the history,
/// oldest entry first. The type keeps that the history is lawful from the core's opening under the decider, that the
/// core's state and the phase are the replay of it, and that while a change is pending the place of its
/// acknowledgement is spare.
#[derive(Drop)]
pub struct Keeper<'d, C: Core, D: Decider> {
    core: C,
    decider: &'d D,
    manager: u8,
    phase: Phase,
    entries: Vec<Entry<C::Call, C::Reply>>,
}

impl<'d, C: Core, D: Decider> Model for Keeper<'d, C, D> {
    ghost use Rattle.std.specs.Prelude.{◌≡◌, vec_capacity};
    ghost use Rattle.manager_history.specs.Kept.{KeeperView, IsKept};

    ghost Value = { KeeperView C D C.Call C.Reply };

    ghost view = { λ keeper. record {
      core = keeper.core;
      decider = keeper.decider.now;
      manager = keeper.manager;
      phase = keeper.phase;
      history = keeper.entries.items;
    } };

    ghost invariant = { λ keeper. IsKept (D.decides keeper.decider.now) C.plain C.formed (C.opening keeper.core) (C.state keeper.core)
        keeper.phase keeper.entries.items (vec_capacity keeper.entries)
        × C.fits (D.decides keeper.decider.now) keeper.core
        × (C.phase keeper.core ≡ keeper.phase) };
}

impl<'d, C: Core, D: Decider> Keeper<'d, C, D> {
    ghost use Rattle.std.specs.Prelude.{◌≡◌, ◌+◌, ◌≤◌, true, false, min, [], ◌∷◌, ◌++◌, length, take, drop};
    ghost use Rattle.std.specs.Prelude.{None, is_some, IsTrue, IfOk, IfErr, OnOk, OnErr, if◌then◌else◌};
    ghost use Rattle.access_vectors.specs.Asking.{with_keys_of};
    ghost use Rattle.access_vectors.specs.Phases.{number_of, version_at, noticed, is_pending, acknowledged};
    ghost use Rattle.access_vectors.specs.Forced.{is_aborted, MayCall};
    ghost use Rattle.manager_history.specs.Histories.{moment, answer_at, said_at, entry_at, acknowledgement, greatest_forced, start_of, replay, IsLawful};
    ghost use Rattle.manager_history.specs.Laws.{RevocationHolds, DenialsAreJust};
    ghost use Rattle.access_vectors.specs.Stale.{AreNamed, now_following, all_following, is_use_following};
    ghost use Rattle.access_vectors.specs.Notices.{notice_fault, IsRefusal};
    ghost use Rattle.manager_history.specs.Kept.{ack_answer, force_answer, is_done, stale_in};

    /// A core with an empty history, settled at number 0 with version 0. It takes no memory.
    pub fn new(alloc: Global, core: C, manager: u8, decider: &'d D) -> Keeper<'d, C, D>
        requires fits { C.fits (D.decides decider.now) core }
        requires opening { C.state core ≡ C.opening core }
        requires settled { C.phase core ≡ Phase.Settled 0 0 }
        ensures { result ≡ record {
          core = core;
          decider = decider.now;
          manager = manager;
          phase = Phase.Settled 0 0;
          history = [];
        } }
    {
        Keeper {
            core,
            decider,
            manager,
            phase: Phase::Settled {
                number: 0,
                version: 0,
            },
            entries: Vec::new(alloc),
        }
    }

    /// Does a caller's call under a policy number, and adds it to the history as one entry: an operation, or where the
    /// number is below the settled one that the call was aborted, which leaves core and asker as they were. `mark` is the
    /// caller's own number of the call. After `Memory` the keeper is as before.
    #[inline(always)]
    pub fn call<A: Asker>(
        &mut self,
        alloc: Global,
        caller: u8,
        mark: u32,
        call: C::Call,
        number: u32,
        asker: &mut A,
    ) -> Result<Answer<C::Reply>, Memory>
        requires formed { C.formed (D.decides self.old.decider) (C.state self.old.core) caller call }
        requires named { MayCall self.old.phase (greatest_forced self.old.history) number }
        requires decides { is_aborted self.old.phase number ≡ false → A.decides asker.old ≡ D.decides self.old.decider }
        requires version { is_aborted self.old.phase number ≡ false → A.version asker.old ≡ version_at self.old.phase number }
        ensures answer { let d = D.decides self.old.decider in
            IfOk result (λ said. said ≡ said_at C.plain d (C.state self.old.core) self.old.phase caller call number) }
        ensures added { let entry = entry_at C.plain (D.decides self.old.decider) (C.state self.old.core) self.old.phase caller mark call number in
            OnOk result (self.new.history ≡ self.old.history ++ entry ∷ []) }
        ensures aborted { is_aborted self.old.phase number ≡ true → (self.new.core ≡ self.old.core) × (asker.new ≡ asker.old) }
        ensures state { let answer = answer_at C.plain (D.decides self.old.decider) (C.state self.old.core) self.old.phase caller call number in
            is_aborted self.old.phase number ≡ false → OnOk result (C.state self.new.core ≡ answer.state) }
        ensures follows { let d = D.decides self.old.decider in
            let reply = (answer_at C.plain d (C.state self.old.core) self.old.phase caller call number).reply in
            is_aborted self.old.phase number ≡ false → OnOk result (C.follows self.new.core
            ≡ C.followed d (C.state self.old.core) caller call number (version_at self.old.phase number) reply (C.follows self.old.core)) }
        ensures asks_nothing { let answer = answer_at C.plain (D.decides self.old.decider) (C.state self.old.core) self.old.phase caller call number in
            is_aborted self.old.phase number ≡ false → is_some (C.denial_of answer.reply) ≡ false
            → is_use_following (C.use_of caller call) (C.follows self.old.core) number ≡ true
            → OnOk result (A.asks asker.new ≡ A.asks asker.old) }
        ensures keys { let answer = answer_at C.plain (D.decides self.old.decider) (C.state self.old.core) self.old.phase caller call number in
            is_aborted self.old.phase number ≡ false
            → OnOk result (A.keys asker.new ≡ (if is_use_following (C.use_of caller call) (C.follows self.old.core) number
            then A.keys asker.old else with_keys_of (A.keys asker.old) answer.asked)) }
        ensures as_before { OnErr result (self.new ≡ self.old) }
        ensures phase { self.new.phase ≡ self.old.phase }
        ensures decider { self.new.decider ≡ self.old.decider }
        ensures manager { self.new.manager ≡ self.old.manager }
        ensures opening { C.opening self.new.core ≡ C.opening self.old.core }
        ensures same { A.same asker.old asker.new }
    {
        let aborted = self.aborts(number);
        self.entries.reserve(2)?;
        if aborted {
            add_aborted(&mut self.entries, caller, mark, call, number);
            return Ok(Answer::Aborted);
        }
        let mut asked = Questions::new(alloc);
        let (kept, reply) = self
            .core
            .call(alloc, caller, &call, number, asker, &mut asked)?;
        let operation = Entry::Op {
            caller,
            mark,
            call,
            number,
            asked,
            reply: kept,
        };
        self.entries.push_reserved(operation);
        Ok(Answer::Did(reply))
    }

    /// Whether a call under this policy number is aborted.
    #[inline(always)]
    fn aborts(&self, number: u32) -> bool
        ensures { result ≡ is_aborted self.now.phase number }
    {
        number < self.phase.settled()
    }

    /// Begins a change to a version, under the next policy number, which it answers. `most` is the last policy number
    /// that may be made. The refusals are tested in this order: a change is pending, the decider has no such version,
    /// the numbers are spent. After a refusal the keeper is as before.
    pub fn notify(&mut self, alloc: Global, ver: u8, most: u32) -> Result<u32, NotifyFault>
        requires { number_of self.old.phase ≤ most }
        ensures refusals { let versions = (D.decides self.old.decider).versions in
            IfErr result (IsRefusal (notice_fault self.old.phase versions ver most)) }
        ensures allowed { let versions = (D.decides self.old.decider).versions in
            OnOk result (notice_fault self.old.phase versions ver most ≡ None) }
        ensures number { IfOk result (λ number. number ≡ number_of self.old.phase + 1) }
        ensures added { IfOk result (λ number. self.new.history ≡ self.old.history ++ Entry.Notice number ver ∷ []) }
        ensures phase { IfOk result (λ number. self.new.phase ≡ noticed self.old.phase number ver) }
        ensures as_before { OnErr result (self.new ≡ self.old) }
        ensures state { C.state self.new.core ≡ C.state self.old.core }
        ensures follows { C.follows self.new.core ≡ C.follows self.old.core }
        ensures decider { self.new.decider ≡ self.old.decider }
        ensures manager { self.new.manager ≡ self.old.manager }
        ensures opening { C.opening self.new.core ≡ C.opening self.old.core }
    {
        let (settled, old) = match self.phase {
            Phase::Pending { number, .. } => return Err(NotifyFault::Pending(number)),
            Phase::Settled { number, version } => (number, version),
        };
        if u16::from(ver) >= self.decider.versions() {
            return Err(NotifyFault::NoVersion);
        }
        if settled == most {
            return Err(NotifyFault::Spent);
        }
        let number = settled + 1;
        let Ok(()) = self.entries.reserve(2) else {
            return Err(NotifyFault::Memory);
        };
        let Ok(_found) = self.core.start(alloc, self.decider, number, old, ver) else {
            return Err(NotifyFault::Memory);
        };
        self.phase = Phase::Pending {
            number,
            old,
            new: ver,
        };
        let notice = Entry::Notice {
            number,
            version: ver,
        };
        self.entries.push_reserved(notice);
        Ok(number)
    }

    /// Lets the first `k` stale slots, or all where they are fewer, follow the pending number, with one tick of `steps` for
    /// each of them, and answers how many are left: 0 where nothing is pending. It takes no memory.
    pub fn update<L: Ledger>(&mut self, k: u64, steps: &mut Steps<L>) -> u64
        ensures left { result ≡ length (C.stale self.new.core) }
        ensures stale { C.stale self.new.core ≡ drop k (C.stale self.old.core) }
        ensures defined { let stale = stale_in (D.decides self.old.decider) C.class C.pair_of C.state C.follows in
            (C.stale self.old.core ≡ stale self.old) × (C.stale self.new.core ≡ stale self.new) }
        ensures follows { let revised = take k (C.stale self.old.core) in
            C.follows self.new.core ≡ now_following revised (number_of self.old.phase) (C.follows self.old.core) }
        ensures idle { is_pending self.old.phase ≡ false → result ≡ 0 }
        ensures cost { steps.new ≡ steps.old + min k (length (C.stale self.old.core)) }
        ensures state { C.state self.new.core ≡ C.state self.old.core }
        ensures history { self.new.history ≡ self.old.history }
        ensures phase { self.new.phase ≡ self.old.phase }
        ensures decider { self.new.decider ≡ self.old.decider }
        ensures manager { self.new.manager ≡ self.old.manager }
        ensures opening { C.opening self.new.core ≡ C.opening self.old.core }
    {
        match self.phase {
            Phase::Settled { .. } => 0,
            Phase::Pending { .. } => self.core.revise(self.decider, k, steps),
        }
    }

    /// Acknowledges the pending number, where no pass of the settled number is out and no slot is stale. The answers are
    /// tested in this order: nothing is pending, older passes are out, stale slots are left, done. `older` is how many
    /// passes it waits for, which the caller knows: where it is 0, every pass that is out and below the pending number is
    /// below the settled one too, so that its calls are aborted. It takes no memory.
    pub fn acknowledge(&mut self, older: u64) -> Ack
        ensures answer { let left = length (C.stale self.old.core) in
            result ≡ ack_answer self.old.phase self.old.manager older left }
        ensures defined { C.stale self.old.core ≡ stale_in (D.decides self.old.decider) C.class C.pair_of C.state C.follows self.old }
        ensures added { IsTrue (is_done result)
            → self.new.history ≡ self.old.history ++ Entry.Ack (number_of self.old.phase) ∷ [] }
        ensures settled { IsTrue (is_done result) → self.new.phase ≡ acknowledged self.old.phase }
        ensures follows { IsTrue (is_done result)
            → C.follows self.new.core ≡ all_following (number_of self.old.phase) (C.follows self.old.core) }
        ensures as_before { is_done result ≡ false → self.new ≡ self.old }
        ensures state { C.state self.new.core ≡ C.state self.old.core }
        ensures decider { self.new.decider ≡ self.old.decider }
        ensures manager { self.new.manager ≡ self.old.manager }
        ensures opening { C.opening self.new.core ≡ C.opening self.old.core }
    {
        let Phase::Pending { .. } = self.phase else {
            return Ack::Idle;
        };
        if older > 0 {
            return Ack::Busy { older };
        }
        self.settle(false)
    }

    /// Acknowledges the pending number, where no slot is stale, and forces older passes out: from then on their calls are
    /// aborted. The answers are tested in this order: nothing is pending, stale slots are left, done. It takes no memory.
    pub fn force(&mut self) -> Ack
        ensures answer { let left = length (C.stale self.old.core) in
            result ≡ force_answer self.old.phase self.old.manager left }
        ensures defined { C.stale self.old.core ≡ stale_in (D.decides self.old.decider) C.class C.pair_of C.state C.follows self.old }
        ensures added { IsTrue (is_done result)
            → self.new.history ≡ self.old.history ++ Entry.Forced (number_of self.old.phase) ∷ [] }
        ensures settled { IsTrue (is_done result) → self.new.phase ≡ acknowledged self.old.phase }
        ensures follows { IsTrue (is_done result)
            → C.follows self.new.core ≡ all_following (number_of self.old.phase) (C.follows self.old.core) }
        ensures as_before { is_done result ≡ false → self.new ≡ self.old }
        ensures state { C.state self.new.core ≡ C.state self.old.core }
        ensures decider { self.new.decider ≡ self.old.decider }
        ensures manager { self.new.manager ≡ self.old.manager }
        ensures opening { C.opening self.new.core ≡ C.opening self.old.core }
    {
        self.settle(true)
    }

    /// Settles the pending number by an acknowledgement, forced or not, where no slot is stale.
    fn settle(&mut self, forced: bool) -> Ack
        ensures answer { let left = length (C.stale self.old.core) in
            result ≡ force_answer self.old.phase self.old.manager left }
        ensures defined { C.stale self.old.core ≡ stale_in (D.decides self.old.decider) C.class C.pair_of C.state C.follows self.old }
        ensures added { IsTrue (is_done result)
            → self.new.history ≡ self.old.history ++ acknowledgement forced (number_of self.old.phase) ∷ [] }
        ensures settled { IsTrue (is_done result) → self.new.phase ≡ acknowledged self.old.phase }
        ensures follows { IsTrue (is_done result)
            → C.follows self.new.core ≡ all_following (number_of self.old.phase) (C.follows self.old.core) }
        ensures as_before { is_done result ≡ false → self.new ≡ self.old }
        ensures state { C.state self.new.core ≡ C.state self.old.core }
        ensures decider { self.new.decider ≡ self.old.decider }
        ensures manager { self.new.manager ≡ self.old.manager }
        ensures opening { C.opening self.new.core ≡ C.opening self.old.core }
    {
        let Phase::Pending { number, new, .. } = self.phase else {
            return Ack::Idle;
        };
        let left = self.core.left();
        if left > 0 {
            return Ack::Behind { left };
        }
        self.core.settle();
        self.phase = Phase::Settled {
            number,
            version: new,
        };
        let entry = if forced {
            Entry::Forced { number }
        } else {
            Entry::Ack { number }
        };
        self.entries.push_reserved(entry);
        Ack::Done(Receipt {
            manager: self.manager,
            number,
        })
    }

    /// Where the policy change stands.
    pub fn phase(&self) -> Phase
        ensures { result ≡ self.now.phase }
    {
        self.phase
    }

    /// The decider, under which the history is lawful.
    pub fn decider(&self) -> &'d D
        ensures { result.now ≡ self.now.decider }
    {
        self.decider
    }

    /// The core.
    pub fn core(&self) -> &C
        ensures { result.now ≡ self.now.core }
    {
        &self.core
    }

    /// How many slots are stale: those of the definition.
    pub fn left(&self) -> u64
        ensures left { result ≡ length (C.stale self.now.core) }
        ensures defined { C.stale self.now.core ≡ stale_in (D.decides self.now.decider) C.class C.pair_of C.state C.follows self.now }
    {
        self.core.left()
    }

    /// The history, oldest entry first. It is lawful from the core's opening, state and phase are the replay of it,
    /// revocation holds in it, and each denial in it is just. The core's stale slots are those of the definition, and every
    /// used slot follows a policy number that may be named: the settled one where nothing is pending.
    pub fn entries(&self) -> History<'_, C>
        ensures value { result.now ≡ self.now.history }
        ensures lawful { let start = start_of (C.opening self.now.core) in
            IsLawful C.plain C.formed (D.decides self.now.decider) start self.now.history }
        ensures replayed { let start = start_of (C.opening self.now.core) in
            replay C.plain (D.decides self.now.decider) start self.now.history
            ≡ moment (C.state self.now.core) self.now.phase (greatest_forced self.now.history) }
        ensures revocation { RevocationHolds (D.decides self.now.decider) (Phase.Settled 0 0) self.now.history }
        ensures denials { let d = D.decides self.now.decider in
            DenialsAreJust C.denial_of d (Phase.Settled 0 0) self.now.history }
        ensures stale { C.stale self.now.core ≡ stale_in (D.decides self.now.decider) C.class C.pair_of C.state C.follows self.now }
        ensures follows { AreNamed self.now.phase (C.follows self.now.core) }
    {
        self.entries.as_slice()
    }
}
