//! What clients do: calls, and passes.

ghost use Rattle.std.specs.Prelude.{◌≡◌, ◌+◌, ◌<◌, ◌^◌, OnOk, OnErr};
ghost use Rattle.session_managers.specs.SessionStates;
ghost use Rattle.session_managers.specs.SessionViews;
ghost use Rattle.session_managers.specs.SessionViews.{IsSameOpening};
ghost use Rattle.session_managers.specs.One;

use crate::acting::{Act, Call, ClientAct, Got};
use crate::managers::SessionManagers;
use crate::one_manager::OneManager;
use access_vectors::{Asked, Decider};
use flask_sid::Memory;
use session_forms::Manager;
use std::alloc::Global;

impl<'d, D: Decider> SessionManagers<'d, D> {
    /// Does a client's call of one of the managers, under its held pass or else a pass of the newest number. One under a pass
    /// below the settled number is aborted, which changes nothing but history and counts. `mark` is the client's own number of
    /// the call. What the call got and what it asked stand in the history, for `got` and `asked`. After `Memory` all is as before.
    #[inline(always)]
    pub fn call(&mut self, alloc: Global, client: u8, mark: u32, call: Call) -> Result<(), Memory>
        requires formed { One.MayCall (D.decides self.old.decider) (SessionStates.place_in self.old.state (SessionStates.manager_of call)) client call }
        requires client { client < 64 }
        requires countable { self.old.state.calls + 1 < 2 ^ 64 }
        ensures told { OnOk result (SessionViews.told_of self.new.told (SessionStates.manager_of call) ≡ SessionStates.told_to (D.decides self.old.decider) self.old.state client call) }
        ensures state { OnOk result (self.new.state ≡ SessionStates.state_called (D.decides self.old.decider) self.old.state client call) }
        ensures events { let number = SessionStates.acting_on self.old.state client (SessionStates.manager_of call) in
            OnOk result (self.new.events ≡ SessionViews.events_with self.old.events (SessionStates.manager_of call) client mark number) }
        ensures as_before { OnErr result (self.new ≡ self.old) }
        ensures opening { IsSameOpening self.old.state self.new.state }
        ensures decider { self.new.decider ≡ self.old.decider }
        ensures whole { self.new.whole ≡ self.old.whole }
    {
        let manager = call.manager();
        let act = Act::Call { mark, call };
        self.changes
            .serve(alloc, number_of(manager), ClientAct { client, act })?;
        let denied = counted(self.denied, self.got(manager));
        self.calls += 1;
        self.denied = denied;
        Ok(())
    }

    /// The policy number under which a client acts on a manager.
    #[inline(always)]
    pub fn acting(&self, client: u8, manager: Manager) -> u32
        requires { client < 64 }
        ensures { result ≡ SessionStates.acting_on self.now.state client manager }
    {
        self.one(manager).acting(client)
    }

    /// The version of the policy under which a client acts on a manager.
    #[inline(always)]
    pub fn acting_version(&self, client: u8, manager: Manager) -> u8
        requires { client < 64 }
        ensures { result ≡ SessionStates.version_on self.now.state client manager }
    {
        let one = self.one(manager);
        one.phase().version_at(one.acting(client))
    }

    /// What stands in the newest entry of a manager's history: after a call what it got. `Aborted` also after a notice or an
    /// acknowledgement, and before the first call.
    #[inline(always)]
    pub fn got(&self, manager: Manager) -> Got<'_>
        ensures { One.got_answer result ≡ (SessionViews.told_of self.now.told manager).answer }
    {
        match self.one(manager) {
            OneManager::File(files) => match files.last_reply() {
                Some(reply) => Got::File(reply),
                None => Got::Aborted,
            },
            OneManager::Process(processes) => match processes.last_reply() {
                Some(reply) => Got::Process(reply),
                None => Got::Aborted,
            },
            OneManager::Port(ports) => match ports.last_reply() {
                Some(reply) => Got::Port(reply),
                None => Got::Aborted,
            },
        }
    }

    /// What was asked in the newest entry of a manager's history: nothing where it is no call that was done.
    #[inline(always)]
    pub fn asked(&self, manager: Manager) -> &[Asked]
        ensures { result.now ≡ (SessionViews.told_of self.now.told manager).asked }
    {
        match self.one(manager) {
            OneManager::File(files) => files.last_asked(),
            OneManager::Process(processes) => processes.last_asked(),
            OneManager::Port(ports) => ports.last_asked(),
        }
    }

    /// One of the managers.
    #[inline(always)]
    fn one(&self, manager: Manager) -> &OneManager<'d, D>
        ensures place { One.place_of result.now ≡ SessionStates.place_in self.now.state manager }
        ensures told { One.last_told result.now ≡ SessionViews.told_of self.now.told manager }
    {
        &self.changes.managers()[usize::from(number_of(manager))]
    }

    /// A client takes a pass of the newest number of a manager, and holds it. One that holds a pass keeps that.
    pub fn begin(&mut self, alloc: Global, client: u8, manager: Manager)
        requires { client < 64 }
        ensures state { self.new.state ≡ SessionStates.state_begun self.old.state client manager }
        ensures events { self.new.events ≡ self.old.events }
        ensures opening { IsSameOpening self.old.state self.new.state }
        ensures decider { self.new.decider ≡ self.old.decider }
        ensures whole { self.new.whole ≡ self.old.whole }
    {
        let act = Act::Begin;
        let _begun = self
            .changes
            .serve(alloc, number_of(manager), ClientAct { client, act });
    }

    /// A client gives its held pass of a manager back, if it holds one.
    pub fn end(&mut self, alloc: Global, client: u8, manager: Manager)
        requires { client < 64 }
        ensures state { self.new.state ≡ SessionStates.state_ended self.old.state client manager }
        ensures events { self.new.events ≡ self.old.events }
        ensures opening { IsSameOpening self.old.state self.new.state }
        ensures decider { self.new.decider ≡ self.old.decider }
        ensures whole { self.new.whole ≡ self.old.whole }
    {
        let act = Act::End;
        let _ended = self
            .changes
            .serve(alloc, number_of(manager), ClientAct { client, act });
    }
}

/// The number of a manager.
#[inline(always)]
fn number_of(manager: Manager) -> u8
    ensures { result ≡ SessionViews.number_of manager }
{
    match manager {
        Manager::File => 0,
        Manager::Process => 1,
        Manager::Port => 2,
    }
}

/// A count of denied calls, with one that got this.
#[inline(always)]
fn counted(denied: u64, got: Got<'_>) -> u64
    requires { denied + 1 < 2 ^ 64 }
    ensures { result ≡ SessionStates.counted_denial (One.denial_in (One.got_answer got.entry)) denied }
{
    if got.is_denied() { denied + 1 } else { denied }
}
