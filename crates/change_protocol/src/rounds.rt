//! One round over the managers: of notices, of updates, of questions whether they acknowledge.

ghost use Rattle.std.specs.Prelude.{◌≡◌, ◌≢◌, ℕ, ◌<◌, ◌≤◌, length, slice_get, vec_len, None, Some, false, IfSome, IfOk, IfErr, OnOk, OnErr, if◌then◌else◌};
ghost use Rattle.managed.specs.Seen.{IsUpdated, IsAcknowledged};
ghost use Rattle.security_server.specs.Numbering.{is_in, with_receipt, is_complete, completed};
ghost use Rattle.change_protocol.specs.Changes;

use crate::answers::{AckAll, NotifyAllFault, Said};
use access_vectors::{Decider, NotifyFault};
use managed::Managed;
use manager_history::Ack;
use security_server::Server;
use std::alloc::Global;
use std::sync::Wait;

/// A number that is proposed, and how many managers have its notice.
#[derive(Clone, Copy)]
pub(crate) struct Begun {
    pub(crate) number: u32,
    pub(crate) first: u8,
}

/// Proposes a version, or goes on with it where it is proposed and some manager has no notice.
pub(crate) fn begin_change<D: Decider>(
    server: &mut Server<'_, D>,
    managers: u8,
    reached: u8,
    ver: u8,
) -> Result<Begun, NotifyAllFault>
    requires { managers ≡ server.old.managers }
    ensures refusals { let versions = (D.decides server.old.decider).versions in
        IfErr result (λ fault. Changes.notify_all_fault versions server.old reached ver ≡ Some fault) }
    ensures allowed { let versions = (D.decides server.old.decider).versions in
        OnOk result (Changes.notify_all_fault versions server.old reached ver ≡ None) }
    ensures begun { IfOk result (λ begun. begun ≡ record {
      number = Changes.number_after server.old.phase;
      first = Changes.first_on server.old.phase reached;
    }) }
    ensures started { OnOk result (server.new ≡ Changes.started server.old ver) }
    ensures as_before { OnErr result (server.new ≡ server.old) }
{
    if let Some((number, version)) = server.pending() {
        if version == ver && reached < managers {
            return Ok(Begun {
                number,
                first: reached,
            });
        }
        return Err(NotifyAllFault::Pending(number));
    }
    match server.propose(u16::from(ver)) {
        Ok(number) => Ok(Begun { number, first: 0 }),
        Err(fault) => Err(for_all(fault)),
    }
}

/// A server's refusal as one of the notices to all.
fn for_all(fault: NotifyFault) -> NotifyAllFault
    ensures { result ≡ Changes.for_all fault }
{
    match fault {
        NotifyFault::Pending(number) => NotifyAllFault::Pending(number),
        NotifyFault::NoVersion => NotifyAllFault::NoVersion,
        NotifyFault::Spent => NotifyAllFault::Spent,
        NotifyFault::Memory => NotifyAllFault::Memory { reached: 0 },
    }
}

/// Gives each manager from one on its notice, up to the first that refuses, and answers how many have theirs then.
pub(crate) fn notify_from<M: Managed, R: Wait>(
    rt: &R,
    alloc: Global,
    ver: u8,
    managers: &mut Vec<M>,
    first: u8,
) -> u8
    requires few { vec_len managers.old ≤ 16 }
    requires within { first ≤ vec_len managers.old }
    ensures len { vec_len managers.new ≡ vec_len managers.old }
    ensures after { first ≤ result }
    ensures within { result ≤ vec_len managers.old }
    ensures each { (place : ℕ) → Changes.AreBoth (Changes.IsToldAt M.seen ver first result place)
        (slice_get managers.old.items place) (slice_get managers.new.items place) }
    ensures same { (place : ℕ) → Changes.AreBoth M.same (slice_get managers.old.items place) (slice_get managers.new.items place) }
{
    let many = managers.len();
    for place in usize::from(first)..many {
        if managers[place].notify(rt, alloc, ver).is_err() {
            return place as u8;
        }
    }
    many as u8
}

/// How a round of notices ends.
pub(crate) fn ending(number: u32, reached: u8, managers: u8) -> Result<u32, NotifyAllFault>
    ensures { result ≡ Changes.ending number reached managers }
{
    if reached < managers {
        return Err(NotifyAllFault::Memory { reached });
    }
    Ok(number)
}

/// Lets each manager update by at most `k` slots, and puts what each leaves at its place.
pub(crate) fn update_each<M: Managed, R: Wait>(
    rt: &R,
    managers: &mut Vec<M>,
    k: u64,
    left: &mut [u64],
)
    requires { length left.old ≡ vec_len managers.old }
    ensures len { vec_len managers.new ≡ vec_len managers.old }
    ensures each { (place : ℕ) → Changes.AreAll (λ was now left. IsUpdated k (M.seen was) (M.seen now) left × M.same was now)
        (slice_get managers.old.items place) (slice_get managers.new.items place) (slice_get left.new place) }
{
    for place in 0..managers.len() {
        left[place] = managers[place].update(rt, k);
    }
}

/// Asks a manager whether it acknowledges, or forces it to.
fn acknowledge<M: Managed, R: Wait>(rt: &R, forced: bool, manager: &mut M) -> Ack
    ensures acknowledged { IsAcknowledged forced (M.seen manager.old) (M.seen manager.new) result }
    ensures same { M.same manager.old manager.new }
{
    if forced {
        return manager.force(rt);
    }
    manager.acknowledge(rt)
}

/// Asks a manager whether it acknowledges, or forces it to, and collects its receipt where it does.
fn ask<D: Decider, M: Managed, R: Wait>(
    rt: &R,
    forced: bool,
    server: &mut Server<'_, D>,
    manager: &mut M,
) -> Said
    requires { Changes.IsExpected server.old (M.seen manager.old) }
    ensures asked { Changes.IsAsked M.seen forced manager.old manager.new result }
    ensures same { M.same manager.old manager.new }
    ensures collected { server.new ≡ (if Changes.is_kept result then with_receipt server.old (M.seen manager.old).manager else server.old) }
{
    match acknowledge(rt, forced, manager) {
        Ack::Done(receipt) => {
            let _ = server.collect(receipt);
            Said::Kept
        }
        Ack::Busy { older } => Said::Busy(older),
        Ack::Behind { left } => Said::Behind(left),
        Ack::Idle => Said::Idle,
    }
}

/// Asks the manager with that number, or forces it, unless its receipt is in.
fn ask_unless_in<D: Decider, M: Managed, R: Wait>(
    rt: &R,
    forced: bool,
    server: &mut Server<'_, D>,
    manager: &mut M,
    number: u8,
) -> Said
    requires numbered { (M.seen manager.old).manager ≡ number }
    requires place { number < length server.old.receipts }
    requires expected { is_in server.old.receipts number ≡ false → Changes.IsExpected server.old (M.seen manager.old) }
    ensures round { let old = is_in server.old.receipts number in
        let new = is_in server.new.receipts number in
        Changes.IsRound M.seen M.same forced old new manager.old manager.new result }
    ensures others { (other : ℕ) → other ≢ number → is_in server.new.receipts other ≡ is_in server.old.receipts other }
    ensures server { Changes.IsSameServer server.old server.new }
{
    if server.received(number) {
        return Said::Kept;
    }
    ask(rt, forced, server, manager)
}

/// Asks each manager whose receipt is not in, or forces it, collects the receipts, and puts what each says at its place.
pub(crate) fn ack_each<D: Decider, M: Managed, R: Wait>(
    rt: &R,
    forced: bool,
    server: &mut Server<'_, D>,
    managers: &mut Vec<M>,
    said: &mut [Said],
)
    requires said { length said.old ≡ vec_len managers.old }
    requires few { vec_len managers.old ≤ 16 }
    requires places { length server.old.receipts ≡ 16 }
    requires expected { (place : ℕ) → IfSome (slice_get managers.old.items place) (λ manager.
        ((M.seen manager).manager ≡ place) × (is_in server.old.receipts place ≡ false → Changes.IsExpected server.old (M.seen manager))) }
    ensures len { vec_len managers.new ≡ vec_len managers.old }
    ensures said_len { length said.new ≡ length said.old }
    ensures server { Changes.IsSameServer server.old server.new }
    ensures each { (place : ℕ) → Changes.AreAll (Changes.IsRound M.seen M.same forced (is_in server.old.receipts place) (is_in server.new.receipts place))
        (slice_get managers.old.items place) (slice_get managers.new.items place) (slice_get said.new place) }
{
    for place in 0..managers.len() {
        said[place] = ask_unless_in(rt, forced, server, &mut managers[place], place as u8);
    }
}

/// Whether the number is complete, which settles it.
pub(crate) fn complete_or_wait<D: Decider>(server: &mut Server<'_, D>, number: u32) -> AckAll
    ensures answer { result ≡ (if is_complete server.old number then AckAll.Complete number else AckAll.Waiting) }
    ensures settled { server.new ≡ completed server.old (is_complete server.old number) }
{
    if server.complete(number) {
        AckAll::Complete(number)
    } else {
        AckAll::Waiting
    }
}
