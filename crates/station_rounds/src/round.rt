//! A round: a board that two callers use beside changes, and what the judge says of its history.

use crate::board::{Versions, opened};
use crate::callers::{Script, Work, seated};
use crate::judge::{PlainBoard, judged};
use crate::pace::Pace;
use crate::run::{retire_all, work_beside};
use std::alloc::Global;
use std::sync::Wait;
use std::thread::Threads;

/// What a round came to: the plain board behind its history, or `None` where an entry is not lawful; how many changes were settled; and whether the
/// pace was kept.
#[derive(Drop)]
pub struct Round {
    pub plain: Option<PlainBoard>,
    pub settled: u32,
    pub paced: bool,
}

/// Opens a board, lets two callers use it beside so many changes, at most 63, with so many calls of each between two of them, and judges what it kept. Answers
/// `None` where memory or seats are missing.
pub fn run_round<R: Threads + Wait + Sync>(
    rt: &R,
    alloc: Global,
    changes: u32,
    step: u32,
) -> Option<Round> {
    let decider = Versions;
    let (board, mut office) = opened(alloc, &decider)?;
    let callers = seated(alloc, &board, &mut office)?;
    let pace = Pace::of(step);
    let uses = Script {
        board: &board,
        work: Work::Uses,
        calls: changes.saturating_mul(step),
        pace: &pace,
    };
    let done = work_beside(rt, alloc, &uses, callers, (office, changes));
    let (callers, mut office, settled) = done;
    retire_all(&board, callers, &mut office);
    if office.out() > 0 {
        return None;
    }
    let keeper = board.close(office);
    let plain = judged(alloc, keeper.entries()).ok()?;
    Some(Round {
        plain,
        settled,
        paced: pace.was_kept(),
    })
}
