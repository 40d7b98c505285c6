//! The example board behind its gate.

ghost use Rattle.std.specs.Prelude.{◌≡◌, ◌<◌, ◌∷◌, [], length, IfOk};
ghost use Rattle.epoch_gate.specs.Seats.{IsOfGate};
ghost use Rattle.epoch_gate.specs.Known.{IsIdle};

use access_vectors::{Class, Decider, Vector};
use epoch_gate::{Admin, GateFault, Seat};
use example_board::{BoardCore, BoardOpening};
use flask_sid::{Memory, Rows, Sid};
use managed_run::{CoreDocket, Station};
use manager_history::Keeper;
use retained_rights::EachBits;
use std::alloc::Global;
use std::sync::atomic::{AtomicU64, Ordering};

/// A decider of two versions: version 0 allows everybody everything, and version 1 withholds reading. It counts what it is
/// asked.
#[derive(Drop)]
pub(crate) struct Counting {
    pub(crate) asked: AtomicU64,
}

impl Decider for Counting {
    ghost use Rattle.std.specs.Prelude.{◌≡◌, ℕ, ◌<◌, ◌==◌, ◌&&◌, nat_lt, IsTrue, if◌then◌else◌};
    ghost use Rattle.std.proofs.Common.{rules, arith};
    ghost use Rattle.std.proofs.lemmas.Bool.Decides.{nat_tests};

    ghost decides = { λ decider. record {
      versions = 2;
      known = λ s. nat_lt 0 s && nat_lt s 4096;
      vector = λ version s t class. if version == 0 then 7 else 6;
      label = λ version s t class. t;
      member = λ version s t class. s;
    } };

    fn versions(&self) -> u16 {
        2
    }

    fn vector(&self, ver: u8, _s: Sid, _t: Sid, _c: Class) -> Vector {
        self.asked.fetch_add(1, Ordering::SeqCst);
        if ver == 0 {
            Vector::of(7)
        } else {
            Vector::of(6)
        }
    }

    fn label(&self, _ver: u8, _s: Sid, t: Sid, _c: Class) -> Sid {
        t
    }

    fn member(&self, _ver: u8, s: Sid, _t: Sid, _c: Class) -> Sid {
        s
    }

    ghost closed = { λ decider. record {
      some_version = Prim.omega arith;
      few_versions = Prim.omega arith;
      sids = λ s known. Prim.grind (arith, nat_tests);
      vectors = λ version s t class below source target. Prim.grind (arith, nat_tests);
      labels = λ version s t class below source target. target;
      members = λ version s t class below source target. source;
    } };
}

/// A decider that was asked nothing yet.
pub(crate) fn new_decider() -> Counting {
    Counting {
        asked: AtomicU64::new(0),
    }
}

pub(crate) type Board<'d> = Station<'d, BoardCore<EachBits>, Counting>;

pub(crate) type Chair<'d> = Seat<CoreDocket<'d, BoardCore<EachBits>, Counting>, Counting>;

pub(crate) type Office<'d> = Admin<CoreDocket<'d, BoardCore<EachBits>, Counting>, Counting>;

/// An opening with two clients of the identifier that is the board's label.
pub(crate) fn two_clients(alloc: Global, client: Sid) -> Result<BoardOpening, Memory>
    ensures clients { IfOk result (λ opening. opening.clients ≡ client ∷ client ∷ []) }
    ensures label { IfOk result (λ opening. opening.label ≡ client) }
{
    let mut clients = Rows::new(alloc);
    clients.push(client)?;
    clients.push(client)?;
    Ok(BoardOpening {
        clients,
        label: client,
    })
}

/// Why there is no board behind a gate: the gate is refused, or there is no memory.
#[derive(Clone, Copy, Debug, PartialEq, Eq)]
pub(crate) enum Refused {
    Gate(GateFault),
    Memory,
}

/// A board of two clients behind its gate, with its administrator.
pub(crate) fn opened<'d>(
    alloc: Global,
    decider: &'d Counting,
    seats: u8,
    quota: u32,
    most: u32,
) -> Result<(Board<'d>, Office<'d>), Refused>
    ensures two { IfOk result (λ made. length made.0.fixed.opening.core.opening.clients ≡ 2) }
    ensures office { IfOk result (λ made. IsOfGate made.0 made.1 × IsIdle made.1) }
{
    let Some(client) = Sid::of(1) else {
        return Err(Refused::Memory);
    };
    let Ok(opening) = two_clients(alloc, client) else {
        return Err(Refused::Memory);
    };
    let core = example_board::new(alloc, opening, EachBits);
    let keeper = Keeper::new(alloc, core, 0, decider);
    match Station::new(alloc, keeper, decider, seats, quota, most) {
        Ok(made) => Ok(made),
        Err(fault) => Err(Refused::Gate(fault)),
    }
}
