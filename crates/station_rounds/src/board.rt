//! The example board behind its gate.

ghost use Rattle.std.specs.Prelude.{◌≡◌, ◌∷◌, [], length, IfOk, IfSome};
ghost use Rattle.epoch_gate.specs.Seats.{IsOfGate};
ghost use Rattle.epoch_gate.specs.Known.{IsIdle};
ghost use Rattle.example_board.specs.PlainManager.{IsCall};
ghost use Rattle.station_rounds.specs.Seated.{IsFreeAt};

use access_vectors::{Class, Decider, Vector};
use epoch_gate::{Admin, Seat};
use example_board::{BoardCall, BoardCore, BoardOpening, BoardReply};
use flask_sid::{Memory, Rows, Sid};
use managed_run::{CoreDocket, Station};
use manager_history::{Answer, Keeper};
use retained_rights::EachBits;
use std::alloc::Global;
use std::sync::Wait;

/// A decider of two versions: version 0 allows everybody everything, and version 1 withholds reading.
#[derive(Clone, Copy, Debug)]
pub struct Versions;

impl Decider for Versions {
    ghost use Rattle.std.specs.Prelude.{◌≡◌, ℕ, ◌<◌, ◌==◌, ◌&&◌, nat_lt, IsTrue, if◌then◌else◌};
    ghost use Rattle.std.proofs.Common.{rules, arith};
    ghost use Rattle.std.proofs.lemmas.Bool.Decides.{nat_tests};

    ghost decides = { λ decider. record {
      versions = 2;
      known = λ s. nat_lt 0 s && nat_lt s 4096;
      vector = λ version s t class. if version == 0 then 7 else 6;
      label = λ version s t class. t;
      member = λ version s t class. s;
    } };

    fn versions(&self) -> u16 {
        2
    }

    fn vector(&self, ver: u8, _s: Sid, _t: Sid, _c: Class) -> Vector {
        if ver == 0 {
            Vector::of(7)
        } else {
            Vector::of(6)
        }
    }

    fn label(&self, _ver: u8, _s: Sid, t: Sid, _c: Class) -> Sid {
        t
    }

    fn member(&self, _ver: u8, s: Sid, _t: Sid, _c: Class) -> Sid {
        s
    }

    ghost closed = { λ decider. record {
      some_version = Prim.omega arith;
      few_versions = Prim.omega arith;
      sids = λ s known. Prim.grind (arith, nat_tests);
      vectors = λ version s t class below source target. Prim.grind (arith, nat_tests);
      labels = λ version s t class below source target. target;
      members = λ version s t class below source target. source;
    } };
}

pub type Board<'d, D> = Station<'d, BoardCore<EachBits>, D>;

pub type Chair<'d, D> = Seat<CoreDocket<'d, BoardCore<EachBits>, D>, D>;

pub type Office<'d, D> = Admin<CoreDocket<'d, BoardCore<EachBits>, D>, D>;

/// An opening with two clients of the identifier that is the board's label.
fn two_clients(alloc: Global, client: Sid) -> Result<BoardOpening, Memory>
    ensures clients { IfOk result (λ opening. opening.clients ≡ client ∷ client ∷ []) }
    ensures label { IfOk result (λ opening. opening.label ≡ client) }
{
    let mut clients = Rows::new(alloc);
    clients.push(client)?;
    clients.push(client)?;
    Ok(BoardOpening {
        clients,
        label: client,
    })
}

/// A board of two clients behind its gate, with its administrator, for at most 64 policy numbers.
pub fn opened<'d>(
    alloc: Global,
    decider: &'d Versions,
) -> Option<(Board<'d, Versions>, Office<'d, Versions>)>
    ensures two { IfSome result (λ made. length made.0.fixed.opening.core.opening.clients ≡ 2) }
    ensures office { IfSome result (λ made. IsOfGate made.0 made.1 × IsIdle made.1) }
{
    let client = Sid::of(1)?;
    let opening = two_clients(alloc, client).ok()?;
    let core = example_board::new(alloc, opening, EachBits);
    let keeper = Keeper::new(alloc, core, 0, decider);
    Station::new(alloc, keeper, decider, 2, 536_870_912, 64).ok()
}

/// A client's call by its mark, under a pass of its own: its reply, or none where there is none.
pub fn called<'d, D: Decider, R: Wait>(
    rt: &R,
    alloc: Global,
    board: &Board<'d, D>,
    seat: &mut Chair<'d, D>,
    asked: (u32, BoardCall),
) -> Option<BoardReply>
    requires board { length board.now.fixed.opening.core.opening.clients ≡ 2 }
    requires seat { IsFreeAt board.now seat.old }
    requires ranges { IsCall asked.1 }
    ensures { IsFreeAt board.now seat.new }
{
    if seat.number() > 1 {
        return None;
    }
    if board.enter(seat).is_err() {
        return None;
    }
    let (mark, call) = asked;
    let answer = board.call(rt, alloc, seat, mark, call);
    board.leave(seat);
    match answer {
        Ok(Answer::Did(reply)) => Some(reply),
        _ => None,
    }
}
