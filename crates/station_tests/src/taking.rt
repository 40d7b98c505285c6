//! A change of policy takes a right that is held.

ghost use Rattle.std.specs.Prelude.{◌≡◌, length};
ghost use Rattle.epoch_gate.specs.Seats.{IsOfGate};
ghost use Rattle.epoch_gate.specs.Known.{IsIdle};

use crate::board::{Board, Chair, new_decider, opened};
use crate::steps::{Said, entered, left, opened_slot, read_slot};
use access_vectors::perms::FILE_READ;
use example_board::BoardReply;
use managed::Managed;
use managed_run::Held;
use manager_history::Ack;
use std::alloc::Global;
use std::sync::Wait;

/// Opens the client's slot 0 for reading, under a pass of its own.
fn opens<'d>(rt: &impl Wait, alloc: Global, board: &Board<'d>, seat: &mut Chair<'d>) -> Said
    requires board { length board.now.fixed.opening.core.opening.clients ≡ 2 }
    requires seat { IsOfGate board.now seat.old × IsIdle seat.old }
    ensures { IsOfGate board.now seat.new × IsIdle seat.new }
{
    let _ = entered(board, seat);
    let said = opened_slot(rt, alloc, board, seat);
    left(board, seat);
    said
}

/// Reads through the client's slot 0, under a pass of its own.
fn reads<'d>(rt: &impl Wait, alloc: Global, board: &Board<'d>, seat: &mut Chair<'d>) -> Said
    requires board { length board.now.fixed.opening.core.opening.clients ≡ 2 }
    requires seat { IsOfGate board.now seat.old × IsIdle seat.old }
    ensures { IsOfGate board.now seat.new × IsIdle seat.new }
{
    let _ = entered(board, seat);
    let said = read_slot(rt, alloc, board, seat);
    left(board, seat);
    said
}

/// The administrator's work: so many changes, between the two versions, each until it is acknowledged.
fn change_often<M: Managed, R: Wait>(rt: &R, alloc: Global, mut held: M, times: u32) -> (M, u32) {
    let mut complete = 0u32;
    for number in 0..times {
        if held.notify(rt, alloc, u8::from(number % 2 == 0)).is_err() {
            return (held, complete);
        }
        if settled(rt, &mut held) {
            complete = complete.saturating_add(1);
        }
    }
    (held, complete)
}

/// Updates slots and tries to acknowledge until that is done.
fn settled<M: Managed, R: Wait>(rt: &R, held: &mut M) -> bool {
    for _ in rt.forever() {
        let _ = held.update(rt, 64);
        if let Ack::Done(_) = held.acknowledge(rt) {
            return true;
        }
    }
    false
}

#[test]
fn a_change_takes_a_right_that_is_held(rt: HostRuntime) {
    let alloc = rt.alloc();
    let decider = new_decider();
    let Ok((board, mut office)) = opened(alloc, &decider, 1, 536_870_912, 9) else {
        panic!(rt; "no board");
    };
    let Ok(mut seat) = board.seat(&mut office) else {
        panic!(rt; "no seat");
    };
    assert_eq!(rt;
        opens(&rt, alloc, &board, &mut seat),
        Said::Replied(BoardReply::Done)
    );
    assert_eq!(rt;
        reads(&rt, alloc, &board, &mut seat),
        Said::Replied(BoardReply::Number(0))
    );
    let held = Held::new(&board, office);
    let (held, complete) = change_often(&rt, alloc, held, 1);
    assert_eq!(rt; complete, 1);
    let _office = held.release();
    let denied = BoardReply::Denied {
        perm: FILE_READ,
        policy: 1,
    };
    assert_eq!(rt; reads(&rt, alloc, &board, &mut seat), Said::Replied(denied));
}
