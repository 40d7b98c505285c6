//! A board of the example board, with a change of policy.

ghost use Rattle.std.specs.Prelude.{◌≡◌, ◌<◌, ◌∷◌, [], IfOk};
ghost use Rattle.example_board.specs.PlainManager.{IsCall};

use access_vectors::perms::FILE_READ;
use access_vectors::{Class, Decider, Vector};
use example_board::{BoardCall, BoardCore, BoardOpening, BoardReply};
use flask_sid::{Memory, Rows, Sid};
use managed::Plain;
use manager_history::{Ack, Answer, NotifyFault, Receipt};
use retained_rights::EachBits;
use std::alloc::Global;
use std::marker::Model;
use std::test::Fail;

/// A decider of two versions: version 0 allows everybody everything, and version 1 withholds reading.
#[derive(Drop)]
struct WithholdingRead;

impl Decider for WithholdingRead {
    ghost use Rattle.std.specs.Prelude.{◌≡◌, ℕ, ◌<◌, ◌==◌, ◌&&◌, nat_lt, IsTrue, if◌then◌else◌};
    ghost use Rattle.std.proofs.Common.{rules, arith};
    ghost use Rattle.std.proofs.lemmas.Bool.Decides.{nat_tests};

    ghost decides = { λ decider. record {
      versions = 2;
      known = λ s. nat_lt 0 s && nat_lt s 4096;
      vector = λ version s t class. if version == 0 then 7 else 6;
      label = λ version s t class. t;
      member = λ version s t class. s;
    } };

    fn versions(&self) -> u16 {
        2
    }

    fn vector(&self, ver: u8, _s: Sid, _t: Sid, _c: Class) -> Vector {
        if ver == 0 {
            Vector::of(7)
        } else {
            Vector::of(6)
        }
    }

    fn label(&self, _ver: u8, _s: Sid, t: Sid, _c: Class) -> Sid {
        t
    }

    fn member(&self, _ver: u8, s: Sid, _t: Sid, _c: Class) -> Sid {
        s
    }

    ghost closed = { λ decider. record {
      some_version = Prim.omega arith;
      few_versions = Prim.omega arith;
      sids = λ s known. Prim.grind (arith, nat_tests);
      vectors = λ version s t class below source target. Prim.grind (arith, nat_tests);
      labels = λ version s t class below source target. target;
      members = λ version s t class below source target. source;
    } };
}

/// An opening with one client, whose label is the board's too.
fn one_client(alloc: Global, client: Sid) -> Result<BoardOpening, Memory>
    ensures clients { IfOk result (λ opening. opening.clients ≡ client ∷ []) }
    ensures label { IfOk result (λ opening. opening.label ≡ client) }
{
    let mut clients = Rows::new(alloc);
    clients.push(client)?;
    Ok(BoardOpening {
        clients,
        label: client,
    })
}

/// What came of a call: a reply, or it was aborted, or memory was wanted.
#[derive(Clone, Copy, Debug, PartialEq, Eq)]
enum Came {
    Did(BoardReply),
    Aborted,
    WantedMemory,
}

/// A board with one client, on one thread.
#[derive(Drop)]
struct ClientBoard<'d> {
    manager: Plain<'d, BoardCore<EachBits>, WithholdingRead>,
}

impl<'d> Model for ClientBoard<'d> {
    ghost use Rattle.std.specs.Prelude.{◌≡◌, ℕ, length};

    ghost Value = { ℕ };

    ghost view = { λ board. length board.manager.keeper.core.opening.clients };

    ghost invariant = { λ board. length board.manager.keeper.core.opening.clients ≡ 1 };
}

impl<'d> ClientBoard<'d> {
    /// The board before the first call.
    fn new(alloc: Global, decider: &'d WithholdingRead) -> Result<ClientBoard<'d>, Memory> {
        let Some(client) = Sid::of(1) else {
            return Err(Memory);
        };
        let opening = one_client(alloc, client)?;
        let core = example_board::new(alloc, opening, EachBits);
        Ok(ClientBoard {
            manager: Plain::new(alloc, core, 0, decider, 9),
        })
    }

    /// A call of the client, and what came of it.
    fn act(&mut self, alloc: Global, call: BoardCall) -> Came
        requires ranges { IsCall call }
    {
        match self.manager.call(alloc, 0, 0, call) {
            Ok(Answer::Did(reply)) => Came::Did(reply),
            Ok(Answer::Aborted) => Came::Aborted,
            Err(Memory) => Came::WantedMemory,
        }
    }

    /// A holder takes a pass: the client, whose number is 0, or another.
    fn begin(&mut self, holder: u8)
        requires { holder < 64 }
    {
        self.manager.begin(holder);
    }

    /// A holder gives its pass back.
    fn end(&mut self, holder: u8)
        requires { holder < 64 }
    {
        self.manager.end(holder);
    }

    /// Begins a change to a version.
    fn notify(&mut self, alloc: Global, version: u8) -> Result<u32, NotifyFault> {
        self.manager.notify(alloc, version)
    }

    /// Updates some stale slots, and answers how many are left.
    fn update(&mut self, k: u64) -> u64 {
        self.manager.update(k)
    }

    /// Tries to acknowledge.
    fn acknowledge(&mut self) -> Ack {
        self.manager.acknowledge()
    }

    /// Tries to acknowledge by force.
    fn force(&mut self) -> Ack {
        self.manager.force()
    }
}

/// Opens slot 0, posts a number and reads it.
fn before_change(board: &mut ClientBoard<'_>, alloc: Global) -> [Came; 3] {
    let mode = Vector::of(3);
    let opened = board.act(alloc, BoardCall::Open { slot: 0, mode });
    let posted = board.act(
        alloc,
        BoardCall::Post {
            slot: 0,
            number: 12,
        },
    );
    let read = board.act(alloc, BoardCall::Read { slot: 0 });
    [opened, posted, read]
}

/// Withholds reading while the client holds a pass, and reads under it. The change is not acknowledged before the pass is
/// given back, nor before the slot follows the new version.
fn change(board: &mut ClientBoard<'_>, alloc: Global) -> (Came, [Ack; 3], u64) {
    board.begin(0);
    let _number = board.notify(alloc, 1);
    let held = board.act(alloc, BoardCall::Read { slot: 0 });
    let busy = board.acknowledge();
    board.end(0);
    let behind = board.acknowledge();
    let left = board.update(5);
    let done = board.acknowledge();
    (held, [busy, behind, done], left)
}

/// Reads and posts again.
fn after_change(board: &mut ClientBoard<'_>, alloc: Global) -> [Came; 2] {
    let read = board.act(alloc, BoardCall::Read { slot: 0 });
    let posted = board.act(
        alloc,
        BoardCall::Post {
            slot: 0,
            number: 13,
        },
    );
    [read, posted]
}

/// What the calls before the change answer.
fn done_done_number() -> [Came; 3] {
    [
        Came::Did(BoardReply::Done),
        Came::Did(BoardReply::Done),
        Came::Did(BoardReply::Number(12)),
    ]
}

/// What the three tries to acknowledge answer.
fn busy_behind_done() -> [Ack; 3] {
    [
        Ack::Busy { older: 1 },
        Ack::Behind { left: 1 },
        Ack::Done(Receipt {
            manager: 0,
            number: 1,
        }),
    ]
}

/// A change that withholds reading.
#[test]
fn a_change_withholds_reading(rt: HostRuntime) -> Result<(), Fail> {
    let decider = WithholdingRead;
    let mut board = ClientBoard::new(rt.alloc(), &decider)?;
    let before = before_change(&mut board, rt.alloc());
    let (held, acks, left) = change(&mut board, rt.alloc());
    let after = after_change(&mut board, rt.alloc());
    let denied = BoardReply::Denied {
        perm: FILE_READ,
        policy: 1,
    };
    assert_eq!(rt; before, done_done_number());
    assert_eq!(rt; held, Came::Did(BoardReply::Number(12)));
    assert_eq!(rt; acks, busy_behind_done());
    assert_eq!(rt; left, 0);
    assert_eq!(rt; after, [Came::Did(denied), Came::Did(BoardReply::Done)]);
    Ok(())
}

/// Withholds reading by force while the client holds a pass, reads under it, and allows reading again while another holder has
/// a pass too, and reads once more. The first change waits for the slot alone, and the second for the other holder alone.
fn forced_change(board: &mut ClientBoard<'_>, alloc: Global) -> ([Ack; 5], [Came; 2]) {
    board.begin(0);
    let _number = board.notify(alloc, 1);
    let behind = board.force();
    let _left = board.update(5);
    let done = board.force();
    let idle = board.force();
    let first = board.act(alloc, BoardCall::Read { slot: 0 });
    board.begin(1);
    let _number = board.notify(alloc, 0);
    let _left = board.update(5);
    let busy = board.acknowledge();
    let second = board.act(alloc, BoardCall::Read { slot: 0 });
    board.end(1);
    let again = board.acknowledge();
    ([behind, done, idle, busy, again], [first, second])
}

/// What the five tries answer.
fn behind_done_idle_busy_done() -> [Ack; 5] {
    let first = Receipt {
        manager: 0,
        number: 1,
    };
    let second = Receipt {
        manager: 0,
        number: 2,
    };
    [
        Ack::Behind { left: 1 },
        Ack::Done(first),
        Ack::Idle,
        Ack::Busy { older: 1 },
        Ack::Done(second),
    ]
}

/// A change that is forced while a pass is held: its calls are aborted, until it is given back.
#[test]
fn a_forced_change_aborts_older_calls(rt: HostRuntime) -> Result<(), Fail> {
    let decider = WithholdingRead;
    let mut board = ClientBoard::new(rt.alloc(), &decider)?;
    let before = before_change(&mut board, rt.alloc());
    let (acks, under_pass) = forced_change(&mut board, rt.alloc());
    board.end(0);
    let after = board.act(rt.alloc(), BoardCall::Read { slot: 0 });
    assert_eq!(rt; before, done_done_number());
    assert_eq!(rt; acks, behind_done_idle_busy_done());
    assert_eq!(rt; under_pass, [Came::Aborted, Came::Aborted]);
    assert_eq!(rt; after, Came::Did(BoardReply::Number(12)));
    Ok(())
}
