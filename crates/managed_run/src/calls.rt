//! Calls of a station's manager: each has one turn, and asks through the gate's cache.

ghost use Rattle.std.specs.Prelude.{◌≡◌, ◌⊎◌, [], IsTrue, IfOk, OnErr, if◌then◌else◌};
ghost use Rattle.access_vectors.specs.declared.asked.Asked.{Asked};
ghost use Rattle.epoch_gate.specs.Seats.{IsOfGate};
ghost use Rattle.epoch_gate.specs.Known.{decider_of, caller_number, seen_by, HasPass, IsIdle};
ghost use Rattle.epoch_gate.specs.Calls.{HasHadTurn};
ghost use Rattle.managed.specs.Posts.{last_asked};
ghost use Rattle.manager_history.specs.declared.answers.Answer.{Answer as Said};
ghost use Rattle.std.specs.Prelude.{List};
ghost use Rattle.managed_run.specs.Calls.{HasAnswered, HasAddedNone, IsSound, KeepsPass};

use crate::asking::{Request, serve};
use crate::docket::CoreDocket;
use crate::station::Station;
use access_vectors::{Decider, Questions};
use epoch_gate::Seat;
use flask_sid::Memory;
use manager_history::{Answer, Core, Entry, History};
use std::alloc::Global;
use std::sync::Wait;

/// A call with the caller's own mark of it, and whether its questions are wanted too.
pub(crate) struct Asking<K> {
    pub(crate) mark: u32,
    pub(crate) call: K,
    pub(crate) copies: bool,
}

/// What the newest entry asked, where that is wanted, and else nothing.
#[tactic(auto, unfolding(managed::specs::Posts::last_asked))]
#[inline(always)]
fn asked_last<C: Core>(
    alloc: Global,
    history: History<'_, C>,
    copies: bool,
) -> Result<Questions, Memory>
    ensures { IfOk result (λ asked. asked ≡ (if copies then last_asked history.now else [])) }
{
    if !copies {
        return Ok(Questions::new(alloc));
    }
    match history.last() {
        Some(Entry::Op { asked, .. }) => asked.copy(alloc),
        _ => Ok(Questions::new(alloc)),
    }
}

impl<'d, C: Core + Drop, D: Decider> Station<'d, C, D> {
    /// Does a call under the pass's number, with one turn, and copies its questions where that is wanted. After `Memory`
    /// nothing was added, the turn is given back and the pass is kept.
    #[inline(always)]
    fn attend<R: Wait>(
        &self,
        rt: &R,
        alloc: Global,
        seat: &mut Seat<CoreDocket<'d, C, D>, D>,
        asking: Asking<C::Call>,
    ) -> Result<(Answer<C::Reply>, Result<Questions, Memory>), Memory>
        requires gate { IsOfGate self.now seat.old }
        requires idle { IsIdle seat.old }
        requires pass { HasPass seat.old }
        requires formed { C.formed (D.decides (decider_of self.now)) (C.opening self.now.fixed.opening.core) (caller_number seat.old) asking.call }
        ensures ok { IfOk result (λ told. (asked : List Asked) × HasAnswered C.use_of asking.mark asking.call told.0 asked seat.old seat.new
            × IfOk told.1 (λ copy. copy ≡ (if asking.copies then asked else []))) }
        ensures err { OnErr result (HasAddedNone seat.old seat.new) }
        ensures sound { IsSound C.plain C.formed C.denial_of (D.decides (decider_of self.now)) (C.opening self.now.fixed.opening.core) (seen_by seat.new) }
        ensures turn { HasHadTurn seat.old seat.new }
        ensures kept { KeepsPass seat.old seat.new }
        ensures pass { HasPass seat.new }
        ensures idle { IsIdle seat.new }
        ensures gate { IsOfGate self.now seat.new }
    {
        let Asking { mark, call, copies } = asking;
        let caller = seat.number();
        let Some((number, _)) = seat.pass() else {
            unreachable!()
        };
        let mut docket = self.gate.take(rt, seat);
        let _found = docket.kept.keeper.entries();
        let request = Request {
            caller,
            mark,
            call,
            number,
        };
        let answer = serve(&self.gate, seat, &mut docket.kept.keeper, alloc, request);
        let history = docket.kept.keeper.entries();
        let copy = asked_last::<C>(alloc, history, copies);
        self.gate.give(seat, docket);
        Ok((answer?, copy))
    }

    /// Does a call under the pass's number, with one turn, asking through the cache. It is `Aborted` exactly where that
    /// number is below the settled one in the history that the turn finds. After `Memory` nothing was added, the turn is
    /// given back and the pass is kept.
    #[inline(always)]
    pub fn call<R: Wait>(
        &self,
        rt: &R,
        alloc: Global,
        seat: &mut Seat<CoreDocket<'d, C, D>, D>,
        mark: u32,
        call: C::Call,
    ) -> Result<Answer<C::Reply>, Memory>
        requires gate { IsOfGate self.now seat.old }
        requires idle { IsIdle seat.old }
        requires pass { HasPass seat.old }
        requires formed { C.formed (D.decides (decider_of self.now)) (C.opening self.now.fixed.opening.core) (caller_number seat.old) call }
        ensures ok { IfOk result (λ said. (asked : List Asked) × HasAnswered C.use_of mark call said asked seat.old seat.new) }
        ensures err { OnErr result (HasAddedNone seat.old seat.new) }
        ensures sound { IsSound C.plain C.formed C.denial_of (D.decides (decider_of self.now)) (C.opening self.now.fixed.opening.core) (seen_by seat.new) }
        ensures turn { HasHadTurn seat.old seat.new }
        ensures kept { KeepsPass seat.old seat.new }
        ensures pass { HasPass seat.new }
        ensures idle { IsIdle seat.new }
        ensures gate { IsOfGate self.now seat.new }
    {
        let asking = Asking {
            mark,
            call,
            copies: false,
        };
        let (answer, _) = self.attend(rt, alloc, seat, asking)?;
        Ok(answer)
    }

    /// As `call`, with the call's questions, copied under the turn; an aborted call has none. After `Memory` the turn is
    /// given back and the pass is kept; nothing was added, or just this call.
    #[inline(always)]
    pub fn call_asked<R: Wait>(
        &self,
        rt: &R,
        alloc: Global,
        seat: &mut Seat<CoreDocket<'d, C, D>, D>,
        mark: u32,
        call: C::Call,
    ) -> Result<(Answer<C::Reply>, Questions), Memory>
        requires gate { IsOfGate self.now seat.old }
        requires idle { IsIdle seat.old }
        requires pass { HasPass seat.old }
        requires formed { C.formed (D.decides (decider_of self.now)) (C.opening self.now.fixed.opening.core) (caller_number seat.old) call }
        ensures ok { IfOk result (λ told. HasAnswered C.use_of mark call told.0 told.1 seat.old seat.new) }
        ensures err { OnErr result (HasAddedNone seat.old seat.new
            ⊎ ((said : Said C.Reply) × (asked : List Asked) × HasAnswered C.use_of mark call said asked seat.old seat.new)) }
        ensures sound { IsSound C.plain C.formed C.denial_of (D.decides (decider_of self.now)) (C.opening self.now.fixed.opening.core) (seen_by seat.new) }
        ensures turn { HasHadTurn seat.old seat.new }
        ensures kept { KeepsPass seat.old seat.new }
        ensures pass { HasPass seat.new }
        ensures idle { IsIdle seat.new }
        ensures gate { IsOfGate self.now seat.new }
    {
        let asking = Asking {
            mark,
            call,
            copies: true,
        };
        let (answer, copy) = self.attend(rt, alloc, seat, asking)?;
        Ok((answer, copy?))
    }
}
