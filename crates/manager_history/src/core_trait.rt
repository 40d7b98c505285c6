//! What a manager of objects is: its calls, what a change of policy asks of it, and its plain manager, which is its meaning.

ghost use Rattle.std.specs.Prelude.{◌≡◌, ℕ, ◌+◌, ◌-◌, ◌<◌, true, false, min};
ghost use Rattle.std.specs.Prelude.{List, [], Option, length, take, drop, is_some, IfOk, OnOk, OnErr, if◌then◌else◌};
ghost use Rattle.std.specs.FinMap as maps;
ghost use Rattle.access_vectors.specs.Decisions.{Decisions};
ghost use Rattle.access_vectors.specs.Asking.{with_keys_of};
ghost use Rattle.access_vectors.specs.Phases.{number_of, version_at, MayName, is_pending, acknowledged};
ghost use Rattle.access_vectors.specs.declared.class.Class.{Class};
ghost use Rattle.access_vectors.specs.declared.phase.Phase.{Phase};
ghost use Rattle.manager_history.specs.Answers.{Manager, Denial, IsHonest};
ghost use Rattle.access_vectors.specs.Stale.{Follows, Pair, AreNamed, stale_slots};
ghost use Rattle.access_vectors.specs.Stale.{now_following, all_following, is_use_following};

use access_vectors::{Asker, Decider, Phase, Questions, Steps};
use flask_sid::Memory;
use std::alloc::Global;
use std::sync::ledger::Ledger;

/// A manager of objects: its calls, and what a change of policy asks of it. Its meaning is a plain manager, which
/// keeps no cache and no rights but asks at each call; the laws and clauses tie each call to it.
pub trait Core {
    type Call: Drop;

    type Reply: Drop;

    /// The state that the plain manager sees.
    ghost State: { Type 0 };

    /// The state at the opening, which no call changes.
    ghost opening: { Self → State };

    /// The present state.
    ghost state: { Self → State };

    /// Where the policy change stands here.
    ghost phase: { Self → Phase };

    /// The plain manager.
    ghost plain: { Manager Self.Call Self.Reply State };

    /// A caller's call is well formed in a state: its caller and clients are the opening's, its identifiers the
    /// decider's, and its numbers in their ranges.
    ghost formed: { Decisions → State → ℕ → Self.Call → Type 0 };

    /// The denial that a reply is, if it is one.
    ghost denial_of: { Self.Reply → Option Denial };

    /// The class of the objects that slots hold.
    ghost class: { Class };

    /// The pair of identifiers of the client and of the object that a slot holds, by the slot's place.
    ghost pair_of: { State → ℕ → Option Pair };

    /// The slot that a call uses, by its place, if it is a use through a slot.
    ghost use_of: { ℕ → Self.Call → Option ℕ };

    /// The policy number that each used slot follows.
    ghost follows: { Self → Follows };

    /// What the slots follow after a caller's call under a policy number and its version, which got this reply: a call
    /// fills a slot, frees slots or sets the label of an object.
    ghost followed: { Decisions → State → ℕ → Self.Call → ℕ → ℕ → Self.Reply → Follows → Follows };

    /// The places of the stale slots, least client and then least slot first.
    ghost stale: { Self → List ℕ };

    /// The core's own promise under a decider, which its constructor makes and each call keeps: its identifiers are
    /// the decider's, and its rights are those that the decider gives.
    ghost fits: { Decisions → Self → Type 0 };

    /// Does a caller's call under a policy number. The two replies are equal, one for the history and one for the
    /// caller. After `Memory` all is as before; the questions are then given up.
    fn call<A: Asker>(
        &mut self,
        alloc: Global,
        caller: u8,
        call: &Self::Call,
        number: u32,
        asker: &mut A,
        asked: &mut Questions,
    ) -> Result<(Self::Reply, Self::Reply), Memory>
        requires fits { fits (A.decides asker.old) self.old }
        requires formed { formed (A.decides asker.old) (state self.old) caller call.now }
        requires named { MayName (phase self.old) number }
        requires version { A.version asker.old ≡ version_at (phase self.old) number }
        requires none_asked { asked.old ≡ [] }
        ensures reply { let answer = plain (A.decides asker.old) (state self.old) caller call.now number (A.version asker.old) in
            IfOk result (λ replies. replies.0 ≡ answer.reply) }
        ensures twice { IfOk result (λ replies. replies.1 ≡ replies.0) }
        ensures state { let answer = plain (A.decides asker.old) (state self.old) caller call.now number (A.version asker.old) in
            OnOk result (state self.new ≡ answer.state) }
        ensures asked { let answer = plain (A.decides asker.old) (state self.old) caller call.now number (A.version asker.old) in
            OnOk result (asked.new ≡ answer.asked) }
        ensures follows { IfOk result (λ replies. follows self.new
            ≡ followed (A.decides asker.old) (state self.old) caller call.now number (A.version asker.old) replies.0 (follows self.old)) }
        ensures asks_nothing { IfOk result (λ replies. is_some (denial_of replies.0) ≡ false
            → is_use_following (use_of caller call.now) (follows self.old) number ≡ true
            → A.asks asker.new ≡ A.asks asker.old) }
        ensures keys { OnOk result (A.keys asker.new
            ≡ (if is_use_following (use_of caller call.now) (follows self.old) number
            then A.keys asker.old else with_keys_of (A.keys asker.old) asked.new)) }
        ensures as_before { OnErr result (self.new ≡ self.old) }
        ensures phase { phase self.new ≡ phase self.old }
        ensures opening { opening self.new ≡ opening self.old }
        ensures fits { fits (A.decides asker.old) self.new }
        ensures same { A.same asker.old asker.new }
        ensures decides { A.decides asker.new ≡ A.decides asker.old }
        ensures at_version { A.version asker.new ≡ A.version asker.old };

    /// Begins a change: from the settled number with version `old` to `number`, the next one, with version `new`.
    /// Answers how many slots are stale. After `Memory` all is as before.
    fn start<D: Decider>(
        &mut self,
        alloc: Global,
        decider: &D,
        number: u32,
        old: u8,
        new: u8,
    ) -> Result<u64, Memory>
        requires fits { fits (D.decides decider.now) self.old }
        requires next { 0 < number }
        requires settled { phase self.old ≡ Phase.Settled (number - 1) old }
        requires old_version { old < (D.decides decider.now).versions }
        requires new_version { new < (D.decides decider.now).versions }
        ensures found { IfOk result (λ found. found ≡ length (stale self.new)) }
        ensures pending { OnOk result (phase self.new ≡ Phase.Pending number old new) }
        ensures as_before { OnErr result (self.new ≡ self.old) }
        ensures state { state self.new ≡ state self.old }
        ensures follows { follows self.new ≡ follows self.old }
        ensures opening { opening self.new ≡ opening self.old }
        ensures fits { fits (D.decides decider.now) self.new };

    /// Lets the first `k` stale slots, or all where they are fewer, follow the pending number. One tick of `steps` for
    /// each of them. Answers how many are left. It takes no memory.
    fn revise<D: Decider, L: Ledger>(&mut self, decider: &D, k: u64, steps: &mut Steps<L>) -> u64
        requires fits { fits (D.decides decider.now) self.old }
        requires pending { is_pending (phase self.old) ≡ true }
        ensures left { result ≡ length (stale self.new) }
        ensures stale { stale self.new ≡ drop k (stale self.old) }
        ensures follows { follows self.new
            ≡ now_following (take k (stale self.old)) (number_of (phase self.old)) (follows self.old) }
        ensures cost { steps.new ≡ steps.old + min k (length (stale self.old)) }
        ensures state { state self.new ≡ state self.old }
        ensures phase { phase self.new ≡ phase self.old }
        ensures opening { opening self.new ≡ opening self.old }
        ensures fits { fits (D.decides decider.now) self.new };

    /// How many slots are stale.
    fn left(&self) -> u64
        ensures { result ≡ length (stale self.now) };

    /// Ends the pending change, after which every used slot follows its number. It takes no memory.
    fn settle(&mut self)
        requires pending { is_pending (phase self.old) ≡ true }
        requires revised { length (stale self.old) ≡ 0 }
        ensures phase { phase self.new ≡ acknowledged (phase self.old) }
        ensures follows { follows self.new ≡ all_following (number_of (phase self.old)) (follows self.old) }
        ensures state { state self.new ≡ state self.old }
        ensures opening { opening self.new ≡ opening self.old }
        ensures fits { (d : Decisions) → fits d self.old → fits d self.new };

    /// The plain manager's questions have the answers that the decisions of the version give, and they are those of its
    /// reply: a denial comes exactly where the last question, and no other, was answered no, and names it.
    ghost honest: { (d : Decisions) (at : State) (caller : ℕ) (call : Self.Call) (number version : ℕ)
        → IsHonest denial_of d number version (plain d at caller call number version) };

    /// A call that is well formed stays so, whatever calls come before it: many callers need not know the state that each
    /// of them finds.
    ghost formed_stays: { (d : Decisions) (at : State) (caller : ℕ) (call : Self.Call) (number version other : ℕ) (later : Self.Call)
        → formed d at caller call → formed d at other later → formed d (plain d at caller call number version).state other later };

    /// The stale slots are those that follow the number before the pending one, and on whose pair the two versions
    /// differ.
    ghost are_stale: { (d : Decisions) (core : Self) → fits d core
        → stale core ≡ stale_slots d class (phase core) (pair_of (state core)) (follows core) };

    /// Every used slot follows a policy number that may be named: the settled one where nothing is pending.
    ghost are_named: { (d : Decisions) (core : Self) → fits d core → AreNamed (phase core) (follows core) };

    /// A slot is used, so that it has a pair, exactly where it follows a policy number.
    ghost are_used: { (d : Decisions) (core : Self) → fits d core
        → (place : ℕ) → is_some (pair_of (state core) place) ≡ is_some (maps.get (follows core) place) };
}
