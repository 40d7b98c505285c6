//! The coordinator of a change over all managers.

ghost use Rattle.std.specs.Prelude.{◌≡◌, ◌<◌, ℕ, false, true, length, slice_get, is_some, IfSome};
ghost use Rattle.access_vectors.specs.Phases.{is_pending};
ghost use Rattle.managed.specs.Seen.{IsUpdated};
ghost use Rattle.change_protocol.specs.Changes;

use crate::answers::{AckAll, NotifyAllFault, Said};
use crate::rounds;
use access_vectors::Decider;
use managed::{Managed, Serves};
use security_server::Server;
use std::alloc::Global;
use std::marker::Model;
use std::sync::Wait;

/// A server and its managers, in the order of their numbers. Contracts see a record `Led`; its type keeps that each manager
/// stands as it has to by what the server has proposed, and that a receipt is in only where the manager has acknowledged.
#[derive(Drop)]
pub struct Coordinator<'d, D: Decider, M: Managed> {
    server: Server<'d, D>,
    managers: Vec<M>,
    reached: u8,
}

impl<'d, D: Decider, M: Managed> Model for Coordinator<'d, D, M> {
    ghost use Rattle.std.specs.Prelude.{◌≡◌};
    ghost use Rattle.change_protocol.specs.Changes.{Led, IsLed};

    ghost Value = { Led D M };

    ghost view = { λ all. record { server = all.server; managers = all.managers.items; reached = all.reached } };

    ghost invariant = { λ all. IsLed D.decides M.seen (record { server = all.server; managers = all.managers.items; reached = all.reached }) };
}

impl<'d, D: Decider, M: Managed> Coordinator<'d, D, M> {
    /// A coordinator of the managers that the server has registered, of which the first `reached` have the notice of the
    /// number that is proposed. It takes no memory.
    pub fn new(server: Server<'d, D>, managers: Vec<M>, reached: u8) -> Coordinator<'d, D, M>
        requires { Changes.IsLed D.decides M.seen (record { server = server; managers = managers.items; reached = reached }) }
        ensures { result ≡ record { server = server.entry; managers = managers.items; reached = reached } }
    {
        Coordinator {
            server,
            managers,
            reached,
        }
    }

    /// Proposes a version under the next policy number, which it answers, and gives every manager its notice, in order.
    /// `Pending`, `NoVersion` and `Spent` come as from the server, before any manager is asked. After `Memory` the same
    /// version goes on with the managers that have no notice, and another is `Pending`.
    pub fn notify_all<R: Wait>(
        &mut self,
        rt: &R,
        alloc: Global,
        ver: u8,
    ) -> Result<u32, NotifyAllFault>
        ensures answer { let versions = (D.decides self.old.server.decider).versions in
            let fault = Changes.notify_all_fault versions self.old.server self.old.reached ver in
            result ≡ Changes.notify_all_answer fault (Changes.number_after self.old.server.phase) self.new.reached self.old.server.managers }
        ensures refused { let versions = (D.decides self.old.server.decider).versions in
            is_some (Changes.notify_all_fault versions self.old.server self.old.reached ver) ≡ true → self.new ≡ self.old }
        ensures server { let versions = (D.decides self.old.server.decider).versions in
            is_some (Changes.notify_all_fault versions self.old.server self.old.reached ver) ≡ false
            → self.new.server ≡ Changes.started self.old.server ver }
        ensures notified { let versions = (D.decides self.old.server.decider).versions in
            let number = Changes.number_after self.old.server.phase in
            let first = Changes.first_on self.old.server.phase self.old.reached in
            is_some (Changes.notify_all_fault versions self.old.server self.old.reached ver) ≡ false
            → (place : ℕ) → Changes.AreBoth (Changes.IsNotifiedAt M.seen ver number first self.new.reached place)
            (slice_get self.old.managers place) (slice_get self.new.managers place) }
        ensures many { length self.new.managers ≡ length self.old.managers }
        ensures same { (place : ℕ) → Changes.AreBoth M.same (slice_get self.old.managers place) (slice_get self.new.managers place) }
        ensures was_led { Changes.IsLed D.decides M.seen self.old }
    {
        let count = self.managers.len() as u8;
        let begun = rounds::begin_change(&mut self.server, count, self.reached, ver)?;
        self.reached = rounds::notify_from(rt, alloc, ver, &mut self.managers, begun.first);
        rounds::ending(begun.number, self.reached, count)
    }

    /// Lets each manager update by at most `k` slots, and puts what each leaves at its place. It takes no memory.
    pub fn update_all<R: Wait>(&mut self, rt: &R, k: u64, left: &mut [u64])
        requires { length left.old ≡ length self.old.managers }
        ensures updated { (place : ℕ) → Changes.AreAll (λ was now left. IsUpdated k (M.seen was) (M.seen now) left)
            (slice_get self.old.managers place) (slice_get self.new.managers place) (slice_get left.new place) }
        ensures many { length self.new.managers ≡ length self.old.managers }
        ensures same { (place : ℕ) → Changes.AreBoth M.same (slice_get self.old.managers place) (slice_get self.new.managers place) }
        ensures was_led { Changes.IsLed D.decides M.seen self.old }
        ensures server { self.new.server ≡ self.old.server }
        ensures reached { self.new.reached ≡ self.old.reached }
    {
        rounds::update_each(rt, &mut self.managers, k, left);
    }

    /// Asks each manager whose receipt is not in whether it acknowledges, puts what each says at its place, and completes the
    /// number where every receipt is in. `Idle` exactly where nothing is proposed; then it asks none, and `said` stays. It
    /// takes no memory.
    pub fn ack_all<R: Wait>(&mut self, rt: &R, said: &mut [Said]) -> AckAll
        requires { length said.old ≡ length self.old.managers }
        ensures { Changes.HasAskedAll D.decides M.seen M.same false self.old self.new said.old said.new result }
    {
        self.ask_all(rt, false, said)
    }

    /// Forces each manager whose receipt is not in to acknowledge, puts what each says at its place, and completes the number
    /// where every receipt is in. None says that it is busy. `Idle` exactly where nothing is proposed; then it forces none,
    /// and `said` stays. It takes no memory.
    pub fn force_all<R: Wait>(&mut self, rt: &R, said: &mut [Said]) -> AckAll
        requires { length said.old ≡ length self.old.managers }
        ensures { Changes.HasAskedAll D.decides M.seen M.same true self.old self.new said.old said.new result }
    {
        self.ask_all(rt, true, said)
    }

    /// Asks each manager whose receipt is not in whether it acknowledges, or forces it to.
    fn ask_all<R: Wait>(&mut self, rt: &R, forced: bool, said: &mut [Said]) -> AckAll
        requires { length said.old ≡ length self.old.managers }
        ensures { Changes.HasAskedAll D.decides M.seen M.same forced self.old self.new said.old said.new result }
    {
        let Some((number, _version)) = self.server.pending() else {
            return AckAll::Idle;
        };
        rounds::ack_each(rt, forced, &mut self.server, &mut self.managers, said);
        rounds::complete_or_wait(&mut self.server, number)
    }

    /// The managers, each of which stands as it has to by what the server has proposed.
    pub fn managers(&self) -> &[M]
        ensures managers { result.now ≡ self.now.managers }
        ensures led { Changes.IsLed D.decides M.seen self.now }
    {
        self.managers.as_slice()
    }

    /// Gives back the server, the managers and how many of them have the notice of the number that is proposed.
    pub fn release(self) -> (Server<'d, D>, Vec<M>, u8)
        ensures server { result.0 ≡ self.entry.server }
        ensures managers { result.1.items ≡ self.entry.managers }
        ensures reached { result.2 ≡ self.entry.reached }
        ensures led { Changes.IsLed D.decides M.seen self.entry }
    {
        let Coordinator {
            server,
            managers,
            reached,
        } = self;
        (server, managers, reached)
    }
}

impl<'d, D: Decider, M: Serves> Coordinator<'d, D, M> {
    /// Does a client's act at the manager with that number. The others stay as they are.
    #[inline(always)]
    pub fn serve(&mut self, alloc: Global, manager: u8, act: M::Act) -> M::Outcome
        requires there { manager < length self.old.managers }
        requires may { IfSome (slice_get self.old.managers manager) (λ it. M.may it act) }
        ensures served { Changes.HasServed (λ was now. M.does was now act result) self.old.managers self.new.managers manager }
        ensures was_led { Changes.IsLed D.decides M.seen self.old }
        ensures server { self.new.server ≡ self.old.server }
        ensures reached { self.new.reached ≡ self.old.reached }
    {
        self.managers[usize::from(manager)].serve(alloc, act)
    }
}
