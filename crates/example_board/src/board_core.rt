//! The board as a core of histories.

ghost use Rattle.std.specs.Prelude.{◌≡◌, ◌<◌, []};
ghost use Rattle.std.specs.FinMap as maps;
ghost use Rattle.access_vectors.specs.Decisions.{Decisions};
ghost use Rattle.access_vectors.specs.declared.phase.Phase.{Phase};
ghost use Rattle.retained_rights.specs.Rules.{Meets};
ghost use Rattle.retained_rights.specs.declared.rule.Rule.{Rule};
ghost use Rattle.example_board.specs.PlainManager.{IsOpening, opened_with};
ghost use Rattle.example_board.specs.Boards.{Safe, state_of, follows};

use crate::board::Board;
use crate::call::{BoardCall, BoardReply};
use crate::opening::BoardOpening;
use crate::rows::serve;
use access_vectors::{Asker, Decider, Questions, Steps};
use flask_sid::Memory;
use manager_history::Core;
use mode_questions::{Caller, Operation};
use retained_rights::Callback;
use std::alloc::Global;
use std::marker::Model;
use std::sync::ledger::Ledger;

/// The board as a core of histories. Contracts see its number and rights.
#[derive(Drop)]
pub struct BoardCore<F: Callback> {
    board: Board<F>,
}

impl<F: Callback> Model for BoardCore<F> {
    ghost use Rattle.example_board.specs.Boards.{BoardView, view_code};

    ghost Value = { BoardView };

    ghost coded = { view_code };

    ghost view = { λ core. core.board };
}

/// The core that an opening gives: the board says 0, every slot is free, and the policy is settled at number 0 with version
/// 0. The callback meets the rule Each. It takes no memory.
pub fn new<F: Callback>(alloc: Global, opening: BoardOpening, callback: F) -> BoardCore<F>
    requires { Meets F.may F.gives Rule.Each callback }
    ensures opening { result.opening ≡ opening }
    ensures state { state_of result ≡ opened_with opening }
    ensures follows { follows result ≡ maps.empty }
    ensures stale { result.rights.stale ≡ [] }
    ensures settled { result.rights.phase ≡ Phase.Settled 0 0 }
    ensures fits { (d : Decisions) → 0 < d.versions → IsOpening d opening → Safe d result }
{
    BoardCore {
        board: Board::new(alloc, opening, callback),
    }
}

impl<F: Callback> Core for BoardCore<F> {
    ghost use Rattle.access_vectors.specs.declared.class.Class.TheVariants.{File};
    ghost use Rattle.example_board.specs.Honest.{honest_answer, formed_stays};
    ghost use Rattle.example_board.specs.PlainManager as plainly;
    ghost use Rattle.example_board.specs.PlainManager.{BoardState, IsFormed, opened_with};
    ghost use Rattle.example_board.specs.Boards as boards;
    ghost use Rattle.example_board.specs.Boards.{Safe, state_of};
    ghost use Rattle.example_board.specs.Laws.{stale_as_defined, follows_named, used_as_followed};

    type Call = BoardCall;

    type Reply = BoardReply;

    ghost State = { BoardState };

    ghost opening = { λ core. opened_with core.opening };

    ghost state = { λ core. state_of core };

    ghost phase = { λ core. core.rights.phase };

    ghost plain = { plainly.answer };

    ghost formed = { λ d state caller call. IsFormed d state caller call };

    ghost denial_of = { plainly.denial_of };

    ghost class = { File };

    ghost pair_of = { plainly.pair_of };

    ghost use_of = { plainly.use_of };

    ghost follows = { λ core. boards.follows core };

    ghost followed = { plainly.followed };

    ghost stale = { λ core. core.rights.stale };

    ghost fits = { λ d core. Safe d core };

    fn call<A: Asker>(
        &mut self,
        alloc: Global,
        caller: u8,
        call: &BoardCall,
        number: u32,
        asker: &mut A,
        asked: &mut Questions,
    ) -> Result<(BoardReply, BoardReply), Memory> {
        let caller = Caller::new(alloc, caller, self.board.sid(caller), number, asker);
        let mut operation = Operation::new(&caller, asker, asked);
        let served = serve(&mut self.board, &mut operation, call);
        let Operation {
            caller: _,
            asker: _,
            asked: _,
        } = operation;
        Ok(served?.pair())
    }

    fn start<D: Decider>(
        &mut self,
        _alloc: Global,
        decider: &D,
        number: u32,
        old: u8,
        new: u8,
    ) -> Result<u64, Memory> {
        let board = &mut self.board;
        board.grants.start(decider, number, old, new)
    }

    fn revise<D: Decider, L: Ledger>(&mut self, decider: &D, k: u64, steps: &mut Steps<L>) -> u64 {
        let board = &mut self.board;
        board.grants.revise(decider, k, steps)
    }

    fn left(&self) -> u64 {
        let board = &self.board;
        board.grants.left()
    }

    fn settle(&mut self) {
        let board = &mut self.board;
        board.grants.settle();
    }

    ghost honest = { λ d at caller call number version. honest_answer d at caller call number version };

    ghost formed_stays = { λ d at caller call number version other later formed next.
        formed_stays d at caller call number version other later next };

    ghost are_stale = { λ d core fits. stale_as_defined d core fits };

    ghost are_named = { λ d core fits. follows_named d core fits };

    ghost are_used = { λ d core fits. used_as_followed d core fits };
}
