//! What the administrator does: a change of policy across the managers.

ghost use Rattle.std.specs.Prelude.{◌≡◌, ◌+◌, ◌<◌, ◌^◌, false, true};
ghost use Rattle.access_vectors.specs.Phases.{number_of};
ghost use Rattle.managed.specs.declared.managed.Event.TheVariants.{Notice};
ghost use Rattle.session_managers.specs.SessionStates;
ghost use Rattle.session_managers.specs.SessionViews;
ghost use Rattle.session_managers.specs.SessionViews.{IsStateUnlessMemory, IsSaid, IsSameOpening, IsWholeUnlessMemory};

use crate::managers::SessionManagers;
use access_vectors::Decider;
use change_protocol::{AckAll, NotifyAllFault, Said};
use std::alloc::Global;
use std::sync::Wait;

/// How the acknowledgement of a change went: as a whole, and what each manager said.
#[derive(Clone, Copy, Debug, PartialEq, Eq)]
pub struct Acks {
    pub all: AckAll,
    pub said: [Said; 3],
}

impl<'d, D: Decider> SessionManagers<'d, D> {
    /// The administrator chooses a version. After `Memory` the first managers, as many as it says, have their notice and the
    /// others stand as before.
    pub fn notify<R: Wait>(&mut self, rt: &R, alloc: Global, ver: u8) -> Result<u32, NotifyAllFault>
        requires { self.old.whole ≡ true }
        ensures said { let refusal = SessionStates.refusal_of (D.decides self.old.decider) self.old.state ver in
            IsSaid result refusal (number_of self.old.state.files.phase + 1) }
        ensures state { let refusal = SessionStates.refusal_of (D.decides self.old.decider) self.old.state ver in
            IsStateUnlessMemory result self.new.state self.old.state ver (SessionStates.state_notified self.old.state ver refusal) }
        ensures events { self.new.events
            ≡ SessionViews.events_noticed self.old.events (SessionViews.reached_by result) (Notice (number_of self.old.state.files.phase + 1) ver) }
        ensures whole { IsWholeUnlessMemory result self.new.whole }
        ensures opening { IsSameOpening self.old.state self.new.state }
        ensures decider { self.new.decider ≡ self.old.decider }
    {
        self.changes.notify_all(rt, alloc, ver)
    }

    /// The administrator lets the first `k` stale slots of each manager follow the pending number, and is told how many are left.
    pub fn update<R: Wait>(&mut self, rt: &R, k: u32) -> [u64; 3]
        ensures left { result ≡ SessionStates.left_on (D.decides self.old.decider) self.old.state k }
        ensures state { self.new.state ≡ SessionStates.state_updated (D.decides self.old.decider) self.old.state k }
        ensures events { self.new.events ≡ self.old.events }
        ensures opening { IsSameOpening self.old.state self.new.state }
        ensures decider { self.new.decider ≡ self.old.decider }
        ensures whole { self.new.whole ≡ self.old.whole }
    {
        let mut left = [0; 3];
        self.changes.update_all(rt, u64::from(k), &mut left);
        left
    }

    /// The administrator asks whether the change is complete: each manager that has not acknowledged it is asked.
    pub fn acknowledge<R: Wait>(&mut self, rt: &R) -> Acks
        requires whole { self.old.whole ≡ true }
        requires countable { self.old.state.changes + 1 < 2 ^ 64 }
        ensures all { result.all ≡ SessionStates.ack_all_of (D.decides self.old.decider) self.old.state }
        ensures said { result.said ≡ SessionStates.all_said (D.decides self.old.decider) self.old.state }
        ensures state { self.new.state ≡ SessionStates.state_acknowledged (D.decides self.old.decider) self.old.state }
        ensures events { self.new.events ≡ SessionViews.events_acknowledged false (D.decides self.old.decider) self.old.state self.old.events }
        ensures opening { IsSameOpening self.old.state self.new.state }
        ensures decider { self.new.decider ≡ self.old.decider }
        ensures whole { self.new.whole ≡ true }
    {
        let mut said = [Said::Kept; 3];
        let all = self.changes.ack_all(rt, &mut said);
        self.completed = counted(self.completed, all);
        Acks { all, said }
    }

    /// The administrator forces the change: each manager that has not acknowledged it does so where no slot of it is stale,
    /// whatever passes are held.
    pub fn force<R: Wait>(&mut self, rt: &R) -> Acks
        requires whole { self.old.whole ≡ true }
        requires countable { self.old.state.changes + 1 < 2 ^ 64 }
        ensures all { result.all ≡ SessionStates.force_all_of (D.decides self.old.decider) self.old.state }
        ensures said { result.said ≡ SessionStates.all_forced (D.decides self.old.decider) self.old.state }
        ensures state { self.new.state ≡ SessionStates.state_forced (D.decides self.old.decider) self.old.state }
        ensures events { self.new.events ≡ SessionViews.events_acknowledged true (D.decides self.old.decider) self.old.state self.old.events }
        ensures opening { IsSameOpening self.old.state self.new.state }
        ensures decider { self.new.decider ≡ self.old.decider }
        ensures whole { self.new.whole ≡ true }
    {
        let mut said = [Said::Kept; 3];
        let all = self.changes.force_all(rt, &mut said);
        self.completed = counted(self.completed, all);
        Acks { said, all }
    }
}

/// A count of changes, with one more where this one is complete.
fn counted(changes: u64, all: AckAll) -> u64
    requires { changes + 1 < 2 ^ 64 }
    ensures { result ≡ SessionStates.counted_change (SessionStates.is_complete all) changes }
{
    match all {
        AckAll::Complete(_) => changes + 1,
        AckAll::Idle | AckAll::Waiting => changes,
    }
}
