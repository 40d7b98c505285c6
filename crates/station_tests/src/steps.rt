//! What a client's seat and the administrator of a board do, step by step, and what is told of each step. A test lists both.

ghost use Rattle.std.specs.Prelude.{◌≡◌, length};
ghost use Rattle.epoch_gate.specs.Seats.{IsOfGate};
ghost use Rattle.epoch_gate.specs.Known.{IsIdle, HasNoPass};
ghost use Rattle.example_board.specs.PlainManager.{IsCall};

use crate::board::{Board, Chair, Office, new_decider, opened};
use access_vectors::{Class, Vector};
use avc_rows::Origin;
use epoch_gate::{SeatFault, Spent};
use example_board::{BoardCall, BoardReply};
use flask_sid::Sid;
use manager_history::{Ack, Answer, NotifyFault, Receipt};
use std::alloc::Global;
use std::process::Abort;
use std::sync::Wait;
use std::sync::atomic::Ordering;

/// What a seat or the administrator does.
#[derive(Clone, Copy, Debug)]
pub(crate) enum Step {
    Enter,
    Leave,
    /// The seat tells its pass.
    Pass,
    /// The seat asks the cache about the board's own label.
    Look,
    /// The client opens its slot 0 for reading.
    Open,
    /// The client reads through its slot 0.
    Read,
    Notify(u8),
    Acknowledge,
    Force,
}

/// What is told of a step.
#[derive(Clone, Copy, Debug, PartialEq, Eq)]
pub(crate) enum Said {
    /// The seat has a pass.
    Entered,
    Spent,
    Left,
    Pass(Option<(u32, u8)>),
    Looked(Option<(Vector, Origin)>),
    Replied(BoardReply),
    Aborted,
    /// There was no call: the seat has no pass, is no client's, or there is no memory.
    NotCalled,
    Notified(Result<u32, NotifyFault>),
    Acknowledged(Ack),
}

impl Said {
    /// The acknowledgement of a number.
    pub(crate) fn done(number: u32) -> Said {
        Said::Acknowledged(Ack::Done(Receipt { manager: 0, number }))
    }

    /// Older passes are out, and hinder an acknowledgement.
    pub(crate) fn busy(older: u64) -> Said {
        Said::Acknowledged(Ack::Busy { older })
    }
}

/// What a new board of one seat, with this quota and so many changes at most, says to these steps is compared with what they list. A second
/// seat is refused. The result is how often the decider was asked.
pub(crate) fn at_one_seat(
    rt: &(impl Wait + Abort),
    alloc: Global,
    quota: u32,
    most: u32,
    steps: &[(Step, Said)],
) -> u64 {
    let decider = new_decider();
    let Ok((board, mut office)) = opened(alloc, &decider, 1, quota, most) else {
        panic!(rt; "no board");
    };
    let Ok(mut seat) = board.seat(&mut office) else {
        panic!(rt; "no seat");
    };
    assert_eq!(rt; board.seat(&mut office).err(), Some(SeatFault::Full));
    take(rt, alloc, &board, &mut office, &mut seat, steps);
    decider.asked.load(Ordering::SeqCst)
}

/// The same of a board of two seats: steps of the first, of the second, and of the first again.
pub(crate) fn at_two_seats(
    rt: &(impl Wait + Abort),
    alloc: Global,
    before: &[(Step, Said)],
    beside: &[(Step, Said)],
    behind: &[(Step, Said)],
) {
    let decider = new_decider();
    let Ok((board, mut office)) = opened(alloc, &decider, 2, 9, 9) else {
        panic!(rt; "no board");
    };
    let Ok(mut first) = board.seat(&mut office) else {
        panic!(rt; "no first seat");
    };
    let Ok(mut second) = board.seat(&mut office) else {
        panic!(rt; "no second seat");
    };
    take(rt, alloc, &board, &mut office, &mut first, before);
    take(rt, alloc, &board, &mut office, &mut second, beside);
    take(rt, alloc, &board, &mut office, &mut first, behind);
}

/// Takes steps of a seat and of the administrator one after another, and compares what is told of each.
fn take<'d>(
    rt: &(impl Wait + Abort),
    alloc: Global,
    board: &Board<'d>,
    office: &mut Office<'d>,
    seat: &mut Chair<'d>,
    steps: &[(Step, Said)],
)
    requires board { length board.now.fixed.opening.core.opening.clients ≡ 2 }
    requires office { IsOfGate board.now office.old × IsIdle office.old }
    requires seat { IsOfGate board.now seat.old × IsIdle seat.old }
    ensures office { IsOfGate board.now office.new × IsIdle office.new }
    ensures seat { IsOfGate board.now seat.new × IsIdle seat.new }
{
    'steps: for (step, wanted) in steps {
        let said = said_of(rt, alloc, board, office, seat, *step);
        assert_eq!(rt; said, *wanted, "{step:?}");
    }
}

/// Takes a step, of the seat or of the administrator.
fn said_of<'d>(
    rt: &impl Wait,
    alloc: Global,
    board: &Board<'d>,
    office: &mut Office<'d>,
    seat: &mut Chair<'d>,
    step: Step,
) -> Said
    requires board { length board.now.fixed.opening.core.opening.clients ≡ 2 }
    requires office { IsOfGate board.now office.old × IsIdle office.old }
    requires seat { IsOfGate board.now seat.old × IsIdle seat.old }
    ensures office { IsOfGate board.now office.new × IsIdle office.new }
    ensures seat { IsOfGate board.now seat.new × IsIdle seat.new }
{
    match step {
        Step::Enter => entered(board, seat),
        Step::Leave => left(board, seat),
        Step::Pass => Said::Pass(seat.pass()),
        Step::Look => Said::Looked(looked(board, seat)),
        Step::Open => opened_slot(rt, alloc, board, seat),
        Step::Read => read_slot(rt, alloc, board, seat),
        Step::Notify(ver) => Said::Notified(board.notify(rt, alloc, office, ver)),
        Step::Acknowledge => Said::Acknowledged(board.acknowledge(rt, office)),
        Step::Force => Said::Acknowledged(board.acknowledge_force(rt, office)),
    }
}

/// The seat has a pass, an old one or a new one, where any is left to it.
pub(crate) fn entered<'d>(board: &Board<'d>, seat: &mut Chair<'d>) -> Said
    requires { IsOfGate board.now seat.old × IsIdle seat.old }
    ensures { IsOfGate board.now seat.new × IsIdle seat.new }
{
    if seat.pass().is_some() {
        return Said::Entered;
    }
    match board.enter(seat) {
        Ok(()) => Said::Entered,
        Err(Spent) => Said::Spent,
    }
}

/// The seat has no pass.
pub(crate) fn left<'d>(board: &Board<'d>, seat: &mut Chair<'d>) -> Said
    requires { IsOfGate board.now seat.old × IsIdle seat.old }
    ensures { IsOfGate board.now seat.new × IsIdle seat.new × HasNoPass seat.new }
{
    if seat.pass().is_some() {
        board.leave(seat);
    }
    Said::Left
}

/// A cached answer of the board for its own label.
fn looked<'d>(board: &Board<'d>, seat: &mut Chair<'d>) -> Option<(Vector, Origin)>
    requires { IsOfGate board.now seat.old × IsIdle seat.old }
    ensures { IsOfGate board.now seat.new × IsIdle seat.new }
{
    let s = Sid::of(1)?;
    seat.pass()?;
    let checked = board.check(seat, s, s, Class::File);
    Some((checked.vector, checked.origin))
}

/// The client opens its slot 0 for reading.
pub(crate) fn opened_slot<'d>(
    rt: &impl Wait,
    alloc: Global,
    board: &Board<'d>,
    seat: &mut Chair<'d>,
) -> Said
    requires board { length board.now.fixed.opening.core.opening.clients ≡ 2 }
    requires seat { IsOfGate board.now seat.old × IsIdle seat.old }
    ensures { IsOfGate board.now seat.new × IsIdle seat.new }
{
    let mode = Vector::of(1);
    called(rt, alloc, board, seat, BoardCall::Open { slot: 0, mode })
}

/// The client reads through its slot 0.
pub(crate) fn read_slot<'d>(
    rt: &impl Wait,
    alloc: Global,
    board: &Board<'d>,
    seat: &mut Chair<'d>,
) -> Said
    requires board { length board.now.fixed.opening.core.opening.clients ≡ 2 }
    requires seat { IsOfGate board.now seat.old × IsIdle seat.old }
    ensures { IsOfGate board.now seat.new × IsIdle seat.new }
{
    called(rt, alloc, board, seat, BoardCall::Read { slot: 0 })
}

/// A client's call, and what it answers.
fn called<'d>(
    rt: &impl Wait,
    alloc: Global,
    board: &Board<'d>,
    seat: &mut Chair<'d>,
    call: BoardCall,
) -> Said
    requires board { length board.now.fixed.opening.core.opening.clients ≡ 2 }
    requires seat { IsOfGate board.now seat.old × IsIdle seat.old }
    requires ranges { IsCall call }
    ensures { IsOfGate board.now seat.new × IsIdle seat.new }
{
    if seat.number() > 1 || seat.pass().is_none() {
        return Said::NotCalled;
    }
    match board.call(rt, alloc, seat, 0, call) {
        Ok(Answer::Did(reply)) => Said::Replied(reply),
        Ok(Answer::Aborted) => Said::Aborted,
        Err(_) => Said::NotCalled,
    }
}
