//! A call of a keeper that asks through a gate's cache, for a seat with a pass.

ghost use Rattle.std.specs.Prelude.{◌≡◌, ◌∷◌, [], ◌++◌, true, false, map, Some, IfOk, OnOk, OnErr, if◌then◌else◌};
ghost use Rattle.access_vectors.specs.Asking.{with_keys_of};
ghost use Rattle.access_vectors.specs.Forced.{is_aborted, MayCall};
ghost use Rattle.access_vectors.specs.Phases.{version_at};
ghost use Rattle.access_vectors.specs.Stale.{is_use_following};
ghost use Rattle.manager_history.specs.Histories.{answer_at, said_at, entry_at, greatest_forced};
ghost use Rattle.epoch_gate.specs.Seats.{IsOfGate};
ghost use Rattle.epoch_gate.specs.Known.{decider_of, HasPass, pass_version, keys_served};
ghost use Rattle.avc_rows.specs.Checks.{IsSame, as_asked};

use access_vectors::Decider;
use avc_rows::Cached;
use epoch_gate::{Gate, Seat};
use flask_sid::Memory;
use gate_rule::Journal;
use manager_history::{Answer, Core, Keeper};
use std::alloc::Global;

/// A caller's call under a policy number, with the caller's own mark of it.
pub(crate) struct Request<K> {
    pub(crate) caller: u8,
    pub(crate) mark: u32,
    pub(crate) call: K,
    pub(crate) number: u32,
}

/// Does a call of a keeper, asking through the cache. After `Memory` the keeper is as before.
#[inline(always)]
pub(crate) fn serve<'d, V: Journal<D>, C: Core, D: Decider>(
    gate: &Gate<'d, V, D>,
    seat: &mut Seat<V, D>,
    keeper: &mut Keeper<'d, C, D>,
    alloc: Global,
    request: Request<C::Call>,
) -> Result<Answer<C::Reply>, Memory>
    requires gate { IsOfGate gate.now seat.old }
    requires pass { HasPass seat.old }
    requires decider { keeper.old.decider ≡ decider_of gate.now }
    requires formed { C.formed (D.decides keeper.old.decider) (C.state keeper.old.core) request.caller request.call }
    requires named { MayCall keeper.old.phase (greatest_forced keeper.old.history) request.number }
    requires version { is_aborted keeper.old.phase request.number ≡ false → pass_version seat.old ≡ version_at keeper.old.phase request.number }
    ensures answer { let d = D.decides keeper.old.decider in
        IfOk result (λ said. said ≡ said_at C.plain d (C.state keeper.old.core) keeper.old.phase request.caller request.call request.number) }
    ensures added { let entry = entry_at C.plain (D.decides keeper.old.decider) (C.state keeper.old.core) keeper.old.phase request.caller request.mark request.call request.number in
        OnOk result (keeper.new.history ≡ keeper.old.history ++ entry ∷ []) }
    ensures aborted { is_aborted keeper.old.phase request.number ≡ true → keeper.new.core ≡ keeper.old.core }
    ensures unserved { is_aborted keeper.old.phase request.number ≡ true → keys_served seat.new ≡ keys_served seat.old }
    ensures keys { let answer = answer_at C.plain (D.decides keeper.old.decider) (C.state keeper.old.core) keeper.old.phase request.caller request.call request.number in
        let before = Some (map as_asked (keys_served seat.old)) in
        is_aborted keeper.old.phase request.number ≡ false
        → OnOk result (Some (map as_asked (keys_served seat.new))
        ≡ (if is_use_following (C.use_of request.caller request.call) (C.follows keeper.old.core) request.number then before else with_keys_of before answer.asked)) }
    ensures as_before { OnErr result (keeper.new ≡ keeper.old) }
    ensures decider { keeper.new.decider ≡ keeper.old.decider }
    ensures manager { keeper.new.manager ≡ keeper.old.manager }
    ensures opening { C.opening keeper.new.core ≡ C.opening keeper.old.core }
    ensures same { IsSame seat.old seat.new }
{
    let Request {
        caller,
        mark,
        call,
        number,
    } = request;
    let mut asker = Cached::new(gate, seat);
    let answer = keeper.call(alloc, caller, mark, call, number, &mut asker);
    let Cached {
        gate: _,
        seat: _,
        number: _,
        plainly: _,
    } = asker;
    answer
}
