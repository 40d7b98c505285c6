//! Changes of policy at a station: each call of the administrator has one turn.

ghost use Rattle.std.specs.Prelude.{◌≡◌, ◌+◌, ◌-◌, ◌≤◌, min, true, false, IfOk, IfErr, OnErr};
ghost use Rattle.access_vectors.specs.Phases.{is_pending};
ghost use Rattle.access_vectors.specs.Notices.{notice_fault, IsRefusal};
ghost use Rattle.epoch_gate.specs.Seats.{IsOfGate};
ghost use Rattle.epoch_gate.specs.Known.{decider_of, greatest_number, versions_at, seen_by, IsIdle, HasTurn, IsUnsettled, stale_found, stale_left};
ghost use Rattle.managed_run.specs.Kinds.{kind_of, phase_of};
ghost use Rattle.managed_run.specs.Calls.{IsSound};
ghost use Rattle.managed_run.specs.Changes.{HasNotified, HasTurnedNone, HasAcknowledged, IsSettled, IsCurrent, StaysClear, KeepsSeats};
ghost use Rattle.managed_run.specs.Changes;

use crate::docket::CoreDocket;
use crate::station::Station;
use access_vectors::{Decider, NotifyFault, Phase, Steps};
use epoch_gate::{Admin, Gate};
use gate_rule::Journal;
use manager_history::{Ack, Core};
use std::alloc::Global;
use std::sync::Wait;
use std::sync::ledger::Ledger;

/// The older passes that are out, where a change is pending, and else 0 without a step.
fn count_older<'d, V: Journal<D>, D: Decider>(
    gate: &Gate<'d, V, D>,
    admin: &mut Admin<V, D>,
    pending: bool,
) -> u64
    requires gate { IsOfGate gate.now admin.old }
    requires turn { HasTurn admin.old }
    requires unsettled { pending ≡ true → IsUnsettled V.means.kind admin.old }
    ensures counted { Changes.HasLooked pending result admin.old admin.new }
    ensures admin_view { Changes.KeepsDesk admin.old admin.new }
    ensures turn { HasTurn admin.new }
    ensures gate { IsOfGate gate.now admin.new }
{
    if pending { gate.older(admin) } else { 0 }
}

impl<'d, C: Core + Drop, D: Decider> Station<'d, C, D> {
    /// Begins a change to a version: raises the policy number and adds its notice, with one turn. The faults are tested in
    /// the keeper's order, over the history that the turn finds. After one of them nothing was added.
    pub fn notify<R: Wait>(
        &self,
        rt: &R,
        alloc: Global,
        admin: &mut Admin<CoreDocket<'d, C, D>, D>,
        ver: u8,
    ) -> Result<u32, NotifyFault>
        requires gate { IsOfGate self.now admin.old }
        requires idle { IsIdle admin.old }
        ensures ok { IfOk result (λ number. HasNotified (versions_at D.decides self.now) (greatest_number self.now) ver number admin.old admin.new) }
        ensures refused { IfErr result (IsRefusal (notice_fault (phase_of (seen_by admin.new)) (versions_at D.decides self.now) ver (greatest_number self.now))) }
        ensures err { OnErr result (HasTurnedNone admin.old admin.new) }
        ensures sound { IsSound C.plain C.formed C.denial_of (D.decides (decider_of self.now)) (C.opening self.now.fixed.opening.core) (seen_by admin.new) }
        ensures current { IsCurrent admin.new }
        ensures clear { StaysClear admin.old admin.new }
        ensures seats { KeepsSeats admin.old admin.new }
        ensures idle { IsIdle admin.new }
        ensures gate { IsOfGate self.now admin.new }
    {
        let _within = admin.current();
        let mut docket = self.gate.take_admin(rt, admin);
        let said = docket.kept.keeper.notify(alloc, ver, self.gate.most());
        let _kept = docket.kept.keeper.entries();
        match said {
            Ok(number) => {
                self.gate.raise(admin, ver);
                self.gate.give_admin(admin, docket);
                Ok(number)
            }
            Err(fault) => {
                self.gate.give_admin(admin, docket);
                Err(fault)
            }
        }
    }

    /// Lets the first `k` stale slots, or all where they are fewer, follow the pending number, with one turn, and answers how
    /// many are left. One tick of `steps` for each of them. While nothing is pending none is stale. It takes no memory.
    pub fn update<R: Wait, L: Ledger>(
        &self,
        rt: &R,
        admin: &mut Admin<CoreDocket<'d, C, D>, D>,
        k: u64,
        steps: &mut Steps<L>,
    ) -> u64
        requires gate { IsOfGate self.now admin.old }
        requires idle { IsIdle admin.old }
        ensures left { (result ≡ stale_left admin.new) × (result ≡ stale_found admin.new - min k (stale_found admin.new)) }
        ensures cost { steps.new ≡ steps.old + min k (stale_found admin.new) }
        ensures turned { HasTurnedNone admin.old admin.new }
        ensures rests { is_pending (phase_of (seen_by admin.new)) ≡ false → stale_found admin.new ≡ 0 }
        ensures sound { IsSound C.plain C.formed C.denial_of (D.decides (decider_of self.now)) (C.opening self.now.fixed.opening.core) (seen_by admin.new) }
        ensures current { IsCurrent admin.new }
        ensures clear { StaysClear admin.old admin.new }
        ensures seats { KeepsSeats admin.old admin.new }
        ensures idle { IsIdle admin.new }
        ensures gate { IsOfGate self.now admin.new }
    {
        let mut docket = self.gate.take_admin(rt, admin);
        let left = docket.kept.keeper.update(k, steps);
        let _kept = docket.kept.keeper.entries();
        self.gate.give_admin(admin, docket);
        left
    }

    /// Acknowledges the pending number, with one turn, where its own load shows no older pass and no slot is stale. Then no
    /// pass below the number is out, now and ever after, but those below a forced one. It takes no memory.
    pub fn acknowledge<R: Wait>(&self, rt: &R, admin: &mut Admin<CoreDocket<'d, C, D>, D>) -> Ack
        requires gate { IsOfGate self.now admin.old }
        requires idle { IsIdle admin.old }
        ensures acknowledged { HasAcknowledged false self.now.fixed.opening.manager result admin.old admin.new }
        ensures done { IsSettled false self.now.fixed.opening.manager result admin.old admin.new }
        ensures sound { IsSound C.plain C.formed C.denial_of (D.decides (decider_of self.now)) (C.opening self.now.fixed.opening.core) (seen_by admin.new) }
        ensures current { IsCurrent admin.new }
        ensures clear { StaysClear admin.old admin.new }
        ensures seats { KeepsSeats admin.old admin.new }
        ensures idle { IsIdle admin.new }
        ensures gate { IsOfGate self.now admin.new }
    {
        let mut docket = self.gate.take_admin(rt, admin);
        let _found = docket.kept.keeper.entries();
        let older = count_older(&self.gate, admin, docket.kept.keeper.phase().is_pending());
        let answer = docket.kept.keeper.acknowledge(older);
        let _kept = docket.kept.keeper.entries();
        self.gate.give_admin(admin, docket);
        answer
    }

    /// Acknowledges the pending number, with one turn, where no slot is stale, whatever passes are out: from then on the calls
    /// of older ones are aborted. It takes no memory.
    pub fn acknowledge_force<R: Wait>(
        &self,
        rt: &R,
        admin: &mut Admin<CoreDocket<'d, C, D>, D>,
    ) -> Ack
        requires gate { IsOfGate self.now admin.old }
        requires idle { IsIdle admin.old }
        ensures acknowledged { HasAcknowledged true self.now.fixed.opening.manager result admin.old admin.new }
        ensures done { IsSettled true self.now.fixed.opening.manager result admin.old admin.new }
        ensures sound { IsSound C.plain C.formed C.denial_of (D.decides (decider_of self.now)) (C.opening self.now.fixed.opening.core) (seen_by admin.new) }
        ensures current { IsCurrent admin.new }
        ensures clear { StaysClear admin.old admin.new }
        ensures seats { KeepsSeats admin.old admin.new }
        ensures idle { IsIdle admin.new }
        ensures gate { IsOfGate self.now admin.new }
    {
        let mut docket = self.gate.take_admin(rt, admin);
        let _found = docket.kept.keeper.entries();
        let answer = docket.kept.keeper.force();
        let _kept = docket.kept.keeper.entries();
        self.gate.give_admin(admin, docket);
        answer
    }
}
