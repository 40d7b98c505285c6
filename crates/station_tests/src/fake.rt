//! A core that wants memory once: its first call answers `Memory`, and every later one is the core's that it stands for.

ghost use Rattle.std.specs.Prelude.{◌≡◌, ◌<◌, [], length, IfSome};
ghost use Rattle.std.specs.FinMap as maps;
ghost use Rattle.epoch_gate.specs.Seats.{IsOfGate};
ghost use Rattle.epoch_gate.specs.Known.{IsIdle, HasPass, HasNoPass};
ghost use Rattle.example_board.specs.PlainManager.{IsCall};

use crate::board::{Counting, new_decider, two_clients};
use access_vectors::{Asker, Decider, Questions, Steps, Vector};
use epoch_gate::{Admin, Seat};
use example_board::{BoardCall, BoardCore, BoardReply};
use flask_sid::{Memory, Sid};
use managed_run::{CoreDocket, Station};
use manager_history::{Answer, Core, Keeper};
use retained_rights::EachBits;
use std::alloc::Global;
use std::marker::Model;
use std::sync::Wait;
use std::sync::ledger::Ledger;

/// A core that wants memory once. Contracts see the core that it stands for.
#[derive(Drop)]
struct Wanting<C: Core + Drop> {
    core: C,
    wanted: bool,
}

impl<C: Core + Drop> Model for Wanting<C> {
    ghost Value = { C };

    ghost view = { λ wanting. wanting.core };
}

impl<C: Core + Drop> Core for Wanting<C> {
    type Call = C::Call;

    type Reply = C::Reply;

    ghost State = { C.State };

    ghost opening = { λ core. C.opening core };

    ghost state = { λ core. C.state core };

    ghost phase = { λ core. C.phase core };

    ghost plain = { C.plain };

    ghost formed = { C.formed };

    ghost denial_of = { C.denial_of };

    ghost class = { C.class };

    ghost pair_of = { C.pair_of };

    ghost use_of = { C.use_of };

    ghost follows = { λ core. C.follows core };

    ghost followed = { C.followed };

    ghost stale = { λ core. C.stale core };

    ghost fits = { λ d core. C.fits d core };

    fn call<A: Asker>(
        &mut self,
        alloc: Global,
        caller: u8,
        call: &C::Call,
        number: u32,
        asker: &mut A,
        asked: &mut Questions,
    ) -> Result<(C::Reply, C::Reply), Memory> {
        if !self.wanted {
            self.wanted = true;
            return Err(Memory);
        }
        self.core.call(alloc, caller, call, number, asker, asked)
    }

    fn start<D: Decider>(
        &mut self,
        alloc: Global,
        decider: &D,
        number: u32,
        old: u8,
        new: u8,
    ) -> Result<u64, Memory> {
        self.core.start(alloc, decider, number, old, new)
    }

    fn revise<D: Decider, L: Ledger>(&mut self, decider: &D, k: u64, steps: &mut Steps<L>) -> u64 {
        self.core.revise(decider, k, steps)
    }

    fn left(&self) -> u64 {
        self.core.left()
    }

    fn settle(&mut self) {
        self.core.settle();
    }

    ghost honest = { C.honest };

    ghost formed_stays = { C.formed_stays };

    ghost are_stale = { λ d core fits. C.are_stale d core fits };

    ghost are_named = { λ d core fits. C.are_named d core fits };

    ghost are_used = { λ d core fits. C.are_used d core fits };
}

type Fake = Wanting<BoardCore<EachBits>>;

/// A board behind its gate whose first call wants memory.
fn opened_wanting<'d>(
    alloc: Global,
    decider: &'d Counting,
) -> Option<
    (
        Station<'d, Fake, Counting>,
        Admin<CoreDocket<'d, Fake, Counting>, Counting>,
    ),
>
    ensures two { IfSome result (λ made. length made.0.fixed.opening.core.opening.clients ≡ 2) }
    ensures office { IfSome result (λ made. IsOfGate made.0 made.1 × IsIdle made.1) }
{
    let client = Sid::of(1)?;
    let opening = two_clients(alloc, client).ok()?;
    let core = Wanting {
        core: example_board::new(alloc, opening, EachBits),
        wanted: false,
    };
    let keeper = Keeper::new(alloc, core, 0, decider);
    Station::new(alloc, keeper, decider, 1, 9, 9).ok()
}

/// A client's call that opens its slot 0: its reply, or none where it is aborted.
fn called<'d>(
    rt: &impl Wait,
    alloc: Global,
    board: &Station<'d, Fake, Counting>,
    seat: &mut Seat<CoreDocket<'d, Fake, Counting>, Counting>,
) -> Result<Option<BoardReply>, Memory>
    requires board { length board.now.fixed.opening.core.opening.clients ≡ 2 }
    requires seat { IsOfGate board.now seat.old × IsIdle seat.old × HasPass seat.old }
    ensures { IsOfGate board.now seat.new × IsIdle seat.new × HasPass seat.new }
{
    if seat.number() > 1 {
        return Err(Memory);
    }
    let mode = Vector::of(3);
    match board.call(rt, alloc, seat, 0, BoardCall::Open { slot: 0, mode })? {
        Answer::Did(reply) => Ok(Some(reply)),
        Answer::Aborted => Ok(None),
    }
}

#[test]
fn a_call_that_wants_memory_adds_nothing(rt: HostRuntime) {
    let alloc = rt.alloc();
    let decider = new_decider();
    let Some((board, mut office)) = opened_wanting(alloc, &decider) else {
        panic!(rt; "no board");
    };
    let Ok(mut seat) = board.seat(&mut office) else {
        panic!(rt; "no seat");
    };
    let Ok(()) = board.enter(&mut seat) else {
        panic!(rt; "no pass");
    };
    assert_eq!(rt; called(&rt, alloc, &board, &mut seat), Err(Memory));
    assert_eq!(rt; seat.pass(), Some((0, 0)));
    assert_eq!(rt;
        called(&rt, alloc, &board, &mut seat),
        Ok(Some(BoardReply::Done))
    );
    board.leave(&mut seat);
    board.retire(seat, &mut office);
    assert_eq!(rt; office.out(), 0);
    let keeper = board.close(office);
    assert_eq!(rt; keeper.entries().len(), 1);
}
