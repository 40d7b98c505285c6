//! A board with one client, on one thread.

ghost use Rattle.std.specs.Prelude.{◌≡◌, ℕ, length, IsTrue};
ghost use Rattle.example_board.specs.PlainManager.{IsCall};

use access_vectors::Decider;
use example_board::{BoardCall, BoardCore, BoardOpening, BoardReply};
use flask_sid::{Memory, Rows, Sid};
use managed::Plain;
use manager_history::{Ack, Answer, NotifyFault};
use retained_rights::EachBits;
use std::alloc::Global;
use std::marker::Model;

/// What came of a call: a reply, or it was aborted, or memory ran out.
#[derive(Clone, Copy, Debug)]
pub enum Came {
    Did(BoardReply),
    Aborted,
    OutOfMemory,
}

/// A board with one client, whose number is 0. Contracts see how many clients it has.
#[derive(Drop)]
pub struct ClientBoard<'d, D: Decider> {
    manager: Plain<'d, BoardCore<EachBits>, D>,
}

impl<'d, D: Decider> Model for ClientBoard<'d, D> {
    ghost Value = { ℕ };

    ghost view = { λ board. length board.manager.keeper.core.opening.clients };

    ghost invariant = { λ board. length board.manager.keeper.core.opening.clients ≡ 1 };
}

impl<'d, D: Decider> ClientBoard<'d, D> {
    /// The board before the first call, under version 0. The last policy number that it may have is 9.
    pub fn new(
        alloc: Global,
        decider: &'d D,
        client: Sid,
        label: Sid,
    ) -> Result<ClientBoard<'d, D>, Memory>
        requires client { IsTrue ((D.decides decider.now).known client) }
        requires label { IsTrue ((D.decides decider.now).known label) }
    {
        let mut clients = Rows::new(alloc);
        clients.push(client)?;
        let core = example_board::new(alloc, BoardOpening { clients, label }, EachBits);
        Ok(ClientBoard {
            manager: Plain::new(alloc, core, 0, decider, 9),
        })
    }

    /// A call of the client, and what came of it.
    pub fn act(&mut self, alloc: Global, call: BoardCall) -> Came
        requires ranges { IsCall call }
    {
        match self.manager.call(alloc, 0, 0, call) {
            Ok(Answer::Did(reply)) => Came::Did(reply),
            Ok(Answer::Aborted) => Came::Aborted,
            Err(Memory) => Came::OutOfMemory,
        }
    }

    /// Begins a change to a version.
    pub fn notify(&mut self, alloc: Global, version: u8) -> Result<u32, NotifyFault> {
        self.manager.notify(alloc, version)
    }

    /// Lets the first `k` stale slots follow, and answers how many are left.
    pub fn update(&mut self, k: u64) -> u64 {
        self.manager.update(k)
    }

    /// Completes the change, or says what it waits for.
    pub fn acknowledge(&mut self) -> Ack {
        self.manager.acknowledge()
    }
}
