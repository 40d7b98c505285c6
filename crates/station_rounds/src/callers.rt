//! Callers of the board, each in a thread of its own.

ghost use Rattle.std.specs.Prelude.{◌≡◌, length, All, IfSome, IsSome};
ghost use Rattle.epoch_gate.specs.Seats.{IsOfGate};
ghost use Rattle.epoch_gate.specs.Known.{IsIdle, seats_made};
ghost use Rattle.example_board.specs.PlainManager.{IsCall};
ghost use Rattle.station_rounds.specs.Seated.{IsFreeAt};

use crate::board::{Board, Chair, Office, called};
use crate::pace::Pace;
use access_vectors::{Decider, Vector};
use example_board::{BoardCall, BoardReply};
use std::alloc::Global;
use std::sync::Wait;
use thread_tasks::Task;

/// What a caller does at its slot 0: it opens it for reading, it reads, or it opens it for both, reads and posts in turn, and closes it.
#[derive(Clone, Copy, Debug)]
pub enum Work {
    Opens,
    Reads,
    Uses,
}

/// What the callers share: the board, of two clients, what each does, and how often, and at which pace.
#[derive(Drop)]
pub struct Script<'s, 'd, D: Decider> {
    pub board: &'s Board<'d, D>,
    pub work: Work,
    pub calls: u32,
    pub pace: &'s Pace,
    pub ghost two: { length board.now.fixed.opening.core.opening.clients ≡ 2 },
}

/// A caller: its seat, whether its last reply was a denial under policy number 1, and whether another reply came after such a
/// denial.
#[derive(Drop)]
pub struct Caller<'d, D: Decider> {
    pub seat: Chair<'d, D>,
    pub denied: bool,
    pub regained: bool,
}

/// The call of a mark, where a slot is opened, read and posted through, and closed.
fn used(mark: u32) -> BoardCall
    ensures { IsCall result }
{
    match mark % 10 {
        0 => BoardCall::Open {
            slot: 0,
            mode: Vector::of(3),
        },
        9 => BoardCall::Close { slot: 0 },
        2 | 5 | 8 => BoardCall::Post {
            slot: 0,
            number: mark,
        },
        _ => BoardCall::Read { slot: 0 },
    }
}

/// The call of a mark.
fn call_of(work: Work, mark: u32) -> BoardCall
    ensures { IsCall result }
{
    match work {
        Work::Opens => BoardCall::Open {
            slot: 0,
            mode: Vector::of(1),
        },
        Work::Reads => BoardCall::Read { slot: 0 },
        Work::Uses => used(mark),
    }
}

/// Whether a reply is a denial under policy number 1.
fn is_taken(reply: Option<BoardReply>) -> bool {
    match reply {
        Some(BoardReply::Denied { policy, .. }) => policy == 1,
        _ => false,
    }
}

/// A caller makes its calls, one after another.
impl<'s, 'd, D: Decider> Task<Caller<'d, D>> for Script<'s, 'd, D> {
    ghost use Rattle.station_rounds.specs.Seated.{IsFreeAt};

    ghost may = { λ script caller. IsFreeAt script.board.now caller.seat };

    ghost did = { λ script was now. IsFreeAt script.board.now now.seat };

    fn run<R: Wait>(&self, rt: &R, alloc: Global, own: &mut Caller<'d, D>) {
        'calls: for mark in 0..self.calls {
            self.pace.before_call(mark);
            let asked = (mark, call_of(self.work, mark));
            let reply = called(rt, alloc, self.board, &mut own.seat, asked);
            self.pace.note_call();
            let denied = is_taken(reply);
            own.regained |= own.denied && !denied;
            own.denied = denied;
        }
    }
}

/// Two new callers.
pub fn seated<'d, D: Decider>(
    alloc: Global,
    board: &Board<'d, D>,
    office: &mut Office<'d, D>,
) -> Option<Vec<Caller<'d, D>>>
    requires { IsOfGate board.now office.old × IsIdle office.old }
    ensures callers { IfSome result (λ callers. All (λ caller. IsFreeAt board.now caller.seat) callers.items) }
    ensures office { IsOfGate board.now office.new × IsIdle office.new }
    ensures made { IsSome result → seats_made office.new ≡ 0 → ⊥ }
{
    let first = fresh(board, office)?;
    let second = fresh(board, office)?;
    let Ok(callers) = vec![in alloc; first, second] else {
        return None;
    };
    Some(callers)
}

/// A new caller.
fn fresh<'d, D: Decider>(board: &Board<'d, D>, office: &mut Office<'d, D>) -> Option<Caller<'d, D>>
    requires { IsOfGate board.now office.old × IsIdle office.old }
    ensures caller { IfSome result (λ caller. IsFreeAt board.now caller.seat) }
    ensures office { IsOfGate board.now office.new × IsIdle office.new }
    ensures made { IsSome result → seats_made office.new ≡ 0 → ⊥ }
{
    let Ok(seat) = board.seat(office) else {
        return None;
    };
    Some(Caller {
        seat,
        denied: false,
        regained: false,
    })
}
