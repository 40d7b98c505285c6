//! A manager on one thread: its keeper, and the passes that its clients hold.

ghost use Rattle.std.specs.Prelude.{◌≡◌, ◌+◌, ◌-◌, ◌<◌, ◌≤◌, false, true, [], ◌∷◌, ◌++◌, length, take, drop, replicate, None, IfOk, IfErr, OnOk, OnErr};
ghost use Rattle.std.specs.Option.{option_copied};
ghost use Rattle.access_vectors.specs.Asking.{counted};
ghost use Rattle.access_vectors.specs.Notices.{notice_fault, IsRefusal};
ghost use Rattle.access_vectors.specs.Phases.{number_of};
ghost use Rattle.access_vectors.specs.Stale.{now_following};
ghost use Rattle.manager_history.specs.Kept.{ack_answer, force_answer, is_done, stale_in};
ghost use Rattle.managed.specs.Posts;

use crate::managed::Shown;
use access_vectors::{Asked, Decider, Phase, Plainly, Steps};
use flask_sid::Memory;
use manager_history::{Ack, Answer, Core, Entry, Keeper, NotifyFault, Passes};
use std::alloc::Global;
use std::marker::{Brand, Model};
use std::sync::ledger::{Blank, Ledger};

/// A manager on one thread: its keeper, the passes that its clients hold, and what the last try of a change showed. Contracts
/// see a record `ManagerView`.
#[derive(Drop)]
pub struct Plain<'d, C: Core, D: Decider> {
    keeper: Keeper<'d, C, D>,
    passes: Passes,
    most: u32,
    tries: u64,
    shown: Shown,
}

impl<'d, C: Core, D: Decider> Model for Plain<'d, C, D> {
    ghost use Rattle.std.specs.Prelude.{◌≡◌, ◌≤◌};
    ghost use Rattle.access_vectors.specs.Phases.{number_of, AreVersions};
    ghost use Rattle.manager_history.specs.Histories.{greatest_forced};
    ghost use Rattle.managed.specs.Posts.{ManagerView, AreNamed};

    ghost Value = { ManagerView C D C.Call C.Reply };

    ghost view = { λ plain. record {
      keeper = plain.keeper;
      held = plain.passes;
      most = plain.most;
      tries = plain.tries;
      shown = plain.shown;
    } };

    ghost invariant = { λ plain. AreNamed plain.keeper.phase (greatest_forced plain.keeper.history) plain.passes
        × (number_of plain.keeper.phase ≤ plain.most)
        × AreVersions (D.decides plain.keeper.decider).versions plain.keeper.phase };
}

impl<'d, C: Core, D: Decider> Plain<'d, C, D> {
    /// A manager with a core at its opening and an empty history, settled at number 0 with version 0. `most` is the last
    /// policy number that may be made. It takes no memory.
    pub fn new(alloc: Global, core: C, manager: u8, decider: &'d D, most: u32) -> Plain<'d, C, D>
        requires fits { C.fits (D.decides decider.now) core }
        requires opening { C.state core ≡ C.opening core }
        requires settled { C.phase core ≡ Phase.Settled 0 0 }
        ensures { result ≡ record {
          keeper = record { core = core; decider = decider.now; manager = manager; phase = Phase.Settled 0 0; history = [] };
          held = replicate 64 None;
          most = most;
          tries = 0;
          shown = record { older = 0; found = 0; left = 0 };
        } }
    {
        Plain {
            keeper: Keeper::new(alloc, core, manager, decider),
            passes: Passes::new(),
            most,
            tries: 0,
            shown: Shown {
                older: 0,
                found: 0,
                left: 0,
            },
        }
    }

    /// Does a client's call, under its held pass or else a pass of the newest number. One under a pass below the settled
    /// number is aborted, and changes nothing but the history. After `Memory` all is as before.
    #[inline(always)]
    pub fn call(
        &mut self,
        alloc: Global,
        client: u8,
        mark: u32,
        call: C::Call,
    ) -> Result<Answer<C::Reply>, Memory>
        requires formed { C.formed (D.decides self.old.keeper.decider) (C.state self.old.keeper.core) client call }
        requires client { client < 64 }
        ensures answer { let post = Posts.post_of C.state C.follows self.old in
            IfOk result (λ said. said ≡ Posts.said_on C.plain (D.decides self.old.keeper.decider) post client call) }
        ensures post { let post = Posts.post_of C.state C.follows self.old in
            let answer = Posts.answer_on C.plain (D.decides self.old.keeper.decider) post client call in
            OnOk result (Posts.post_of C.state C.follows self.new ≡ Posts.called C.followed (D.decides self.old.keeper.decider) post client call answer) }
        ensures added { let post = Posts.post_of C.state C.follows self.old in
            let entry = Posts.entry_on C.plain (D.decides self.old.keeper.decider) post client mark call in
            OnOk result (self.new.keeper.history ≡ self.old.keeper.history ++ entry ∷ []) }
        ensures as_before { OnErr result (self.new ≡ self.old) }
        ensures same { Posts.IsSameUntried C.opening self.old self.new }
    {
        let number = self.acting(client);
        let version = self.keeper.phase().version_at(number);
        let mut asker = Plainly::new(self.keeper.decider(), version);
        self.keeper
            .call(alloc, client, mark, call, number, &mut asker)
    }

    /// What the newest entry of the history asked, which is nothing where it is no operation.
    #[tactic(auto, unfolding(crate::specs::Posts::last_asked))]
    #[inline(always)]
    pub fn last_asked(&self) -> &[Asked]
        ensures { result.now ≡ Posts.last_asked self.now.keeper.history }
    {
        match self.keeper.entries().last() {
            Some(Entry::Op { asked, .. }) => asked.as_slice(),
            _ => &[],
        }
    }

    /// The reply that stands in the newest entry of the history; none where it is no operation.
    #[tactic(auto, unfolding(crate::specs::Posts::last_reply))]
    #[inline(always)]
    pub fn last_reply(&self) -> Option<&C::Reply>
        ensures { option_copied result ≡ Posts.last_reply self.now.keeper.history }
    {
        match self.keeper.entries().last() {
            Some(Entry::Op { reply, .. }) => Some(reply),
            _ => None,
        }
    }

    /// Where the change of policy stands.
    pub fn phase(&self) -> Phase
        ensures { result ≡ self.now.keeper.phase }
    {
        self.keeper.phase()
    }

    /// The policy number under which a client acts.
    #[inline(always)]
    pub fn acting(&self, client: u8) -> u32
        requires { client < 64 }
        ensures { result ≡ Posts.acting_number (Posts.post_of C.state C.follows self.now) client }
    {
        match self.passes.held(client) {
            Some(number) => number,
            None => self.keeper.phase().number(),
        }
    }

    /// A client takes a pass of the newest number, and holds it. One that holds a pass keeps that.
    pub fn begin(&mut self, client: u8)
        requires { client < 64 }
        ensures post { Posts.post_of C.state C.follows self.new ≡ Posts.begun (Posts.post_of C.state C.follows self.old) client }
        ensures keeper { self.new.keeper ≡ self.old.keeper }
        ensures same { Posts.IsSameUntried C.opening self.old self.new }
    {
        if let None = self.passes.held(client) {
            let number = self.keeper.phase().number();
            self.passes.enter(client, number);
        }
    }

    /// A client gives its held pass back, if it holds one.
    pub fn end(&mut self, client: u8)
        requires { client < 64 }
        ensures post { Posts.post_of C.state C.follows self.new ≡ Posts.ended (Posts.post_of C.state C.follows self.old) client }
        ensures keeper { self.new.keeper ≡ self.old.keeper }
        ensures same { Posts.IsSameUntried C.opening self.old self.new }
    {
        if let Some(_number) = self.passes.held(client) {
            self.passes.leave(client);
        }
    }

    /// Begins a change to a version, under the next policy number, which it answers. After a refusal all is as before.
    pub fn notify(&mut self, alloc: Global, ver: u8) -> Result<u32, NotifyFault>
        ensures refusals { let versions = (D.decides self.old.keeper.decider).versions in
            IfErr result (IsRefusal (notice_fault self.old.keeper.phase versions ver self.old.most)) }
        ensures allowed { let versions = (D.decides self.old.keeper.decider).versions in
            OnOk result (notice_fault self.old.keeper.phase versions ver self.old.most ≡ None) }
        ensures number { IfOk result (λ number. number ≡ number_of self.old.keeper.phase + 1) }
        ensures post { OnOk result (Posts.post_of C.state C.follows self.new ≡ Posts.notified (Posts.post_of C.state C.follows self.old) ver) }
        ensures added { IfOk result (λ number. self.new.keeper.history ≡ self.old.keeper.history ++ Entry.Notice number ver ∷ []) }
        ensures as_before { OnErr result (self.new ≡ self.old) }
        ensures same { Posts.IsSameUntried C.opening self.old self.new }
    {
        self.keeper.notify(alloc, ver, self.most)
    }

    /// Lets the first `k` stale slots, or all where they are fewer, follow the pending number, and answers how many are left:
    /// 0 where nothing is pending. It takes no memory.
    pub fn update(&mut self, k: u64) -> u64
        ensures left { let stale = stale_in (D.decides self.old.keeper.decider) C.class C.pair_of C.state C.follows self.old.keeper in
            result ≡ length (drop k stale) }
        ensures post { let stale = stale_in (D.decides self.old.keeper.decider) C.class C.pair_of C.state C.follows self.old.keeper in
            Posts.post_of C.state C.follows self.new ≡ Posts.updated (Posts.post_of C.state C.follows self.old) stale k }
        ensures remaining { let stale = stale_in (D.decides self.old.keeper.decider) C.class C.pair_of C.state C.follows in
            stale self.new.keeper ≡ drop k (stale self.old.keeper) }
        ensures shown { let stale = stale_in (D.decides self.old.keeper.decider) C.class C.pair_of C.state C.follows self.old.keeper in
            self.new.shown ≡ record { older = 0; found = length stale; left = length (drop k stale) } }
        ensures tries { self.new.tries ≡ counted self.old.tries }
        ensures history { self.new.keeper.history ≡ self.old.keeper.history }
        ensures same { Posts.IsSameManager C.opening self.old self.new }
    {
        let found = self.keeper.left();
        let left = update_counted::<C, D, Brand>(&mut self.keeper, k, Blank::new(1));
        self.tries = self.tries.saturating_add(1);
        self.shown = Shown {
            older: 0,
            found,
            left,
        };
        left
    }

    /// Acknowledges the pending number, where no pass of the settled number is held and no slot is stale. It takes no memory.
    pub fn acknowledge(&mut self) -> Ack
        ensures answer { let stale = stale_in (D.decides self.old.keeper.decider) C.class C.pair_of C.state C.follows self.old.keeper in
            let older = Posts.older_on (Posts.post_of C.state C.follows self.old) in
            result ≡ ack_answer self.old.keeper.phase self.old.keeper.manager older (length stale) }
        ensures post { Posts.post_of C.state C.follows self.new ≡ Posts.settled_if (Posts.post_of C.state C.follows self.old) (is_done result) }
        ensures shown { let stale = stale_in (D.decides self.old.keeper.decider) C.class C.pair_of C.state C.follows self.old.keeper in
            let older = Posts.older_on (Posts.post_of C.state C.follows self.old) in
            self.new.shown ≡ Posts.shown_after self.old.keeper.phase self.old.shown older (length stale) }
        ensures tries { self.new.tries ≡ Posts.tries_after self.old.keeper.phase self.old.tries }
        ensures history { self.new.keeper.history ≡ self.old.keeper.history ++ Posts.added_by false self.old.keeper.phase (is_done result) }
        ensures same { Posts.IsSameManager C.opening self.old self.new }
    {
        let older = self.older();
        let Phase::Pending { .. } = self.keeper.phase() else {
            return Ack::Idle;
        };
        let ack = self.keeper.acknowledge(older);
        let found = found_by(&self.keeper, ack);
        self.tries = self.tries.saturating_add(1);
        self.shown = Shown {
            older,
            found,
            left: found,
        };
        ack
    }

    /// How many passes of the settled number are held.
    fn older(&self) -> u64
        ensures { result ≡ Posts.older_on (Posts.post_of C.state C.follows self.now) }
    {
        self.passes.at(self.keeper.phase().settled())
    }

    /// Acknowledges the pending number, where no slot is stale, whatever passes are held: from then on the calls of older ones
    /// are aborted. It takes no memory.
    pub fn force(&mut self) -> Ack
        ensures answer { let stale = stale_in (D.decides self.old.keeper.decider) C.class C.pair_of C.state C.follows self.old.keeper in
            result ≡ force_answer self.old.keeper.phase self.old.keeper.manager (length stale) }
        ensures post { Posts.post_of C.state C.follows self.new ≡ Posts.settled_if (Posts.post_of C.state C.follows self.old) (is_done result) }
        ensures shown { let stale = stale_in (D.decides self.old.keeper.decider) C.class C.pair_of C.state C.follows self.old.keeper in
            self.new.shown ≡ Posts.shown_after self.old.keeper.phase self.old.shown 0 (length stale) }
        ensures tries { self.new.tries ≡ Posts.tries_after self.old.keeper.phase self.old.tries }
        ensures history { self.new.keeper.history ≡ self.old.keeper.history ++ Posts.added_by true self.old.keeper.phase (is_done result) }
        ensures same { Posts.IsSameManager C.opening self.old self.new }
    {
        let Phase::Pending { .. } = self.keeper.phase() else {
            return Ack::Idle;
        };
        let ack = self.keeper.force();
        let found = found_by(&self.keeper, ack);
        self.tries = self.tries.saturating_add(1);
        self.shown = Shown {
            older: 0,
            found,
            left: found,
        };
        ack
    }
}

/// How many stale slots an acknowledgement found, by what it answered: it counts them only where older passes kept it back
/// before it did.
fn found_by<C: Core, D: Decider>(keeper: &Keeper<'_, C, D>, ack: Ack) -> u64
    ensures { result ≡ Posts.found_by ack (length (C.stale keeper.now.core)) }
{
    match ack {
        Ack::Busy { .. } => keeper.left(),
        Ack::Behind { left } => left,
        Ack::Done(_) | Ack::Idle => 0,
    }
}

/// Lets the first `k` stale slots of a keeper follow the pending number under a ledger: the blank's, which counts the steps, of
/// which there is one for each of these slots. Answers how many are left.
fn update_counted<C: Core, D: Decider, L: Ledger>(
    keeper: &mut Keeper<'_, C, D>,
    k: u64,
    blank: Blank,
) -> u64
    requires name { blank.name ≡ L.name }
    requires parts { blank.parts ≡ L.parts }
    requires some { 0 < L.parts }
    ensures left { let stale = stale_in (D.decides keeper.old.decider) C.class C.pair_of C.state C.follows keeper.old in
        result ≡ length (drop k stale) }
    ensures remaining { let stale = stale_in (D.decides keeper.old.decider) C.class C.pair_of C.state C.follows in
        stale keeper.new ≡ drop k (stale keeper.old) }
    ensures follows { let stale = stale_in (D.decides keeper.old.decider) C.class C.pair_of C.state C.follows keeper.old in
        C.follows keeper.new.core ≡ now_following (take k stale) (number_of keeper.old.phase) (C.follows keeper.old.core) }
    ensures state { C.state keeper.new.core ≡ C.state keeper.old.core }
    ensures history { keeper.new.history ≡ keeper.old.history }
    ensures phase { keeper.new.phase ≡ keeper.old.phase }
    ensures decider { keeper.new.decider ≡ keeper.old.decider }
    ensures manager { keeper.new.manager ≡ keeper.old.manager }
    ensures opening { C.opening keeper.new.core ≡ C.opening keeper.old.core }
{
    let mut steps = Steps::<L>::new(blank);
    keeper.update(k, &mut steps)
}
