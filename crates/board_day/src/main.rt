//! A notice board whose policy changes: from the text of a policy to the answers of a manager, in one program.
//!
//! The policy has two versions. Its one client reads the board under the first, the administrator changes to the second, and the
//! client's slot gives nothing any more. `docs/MANAGERS.md` goes through it.
#![tactic(auto)]

ghost use Rattle.std.specs.Prelude.{◌≡◌, true, length, IfSome};
ghost use Rattle.policy_versions.specs.Judging.{is_sid};

mod client_board;

use access_vectors::Vector;
use client_board::{Came, ClientBoard};
use example_board::{BoardCall, BoardReply};
use flask_sid::{Context, Memory, Sid};
use manager_history::Ack;
use policy_versions::{Catalogue, compile};
use std::alloc::Global;
use std::io;

/// Version 0 lets ann read the board and post on it, and version 1 lets her post alone.
const POLICY: &str = "policy 1
context ann:user_r:reader_t
context sys:object_r:board_t
version
allow reader_t board_t file read write
version
allow reader_t board_t file write
";

fn main(rt: HostRuntime) -> io::Result<()> {
    match catalogue_of(rt.alloc(), POLICY.as_bytes()) {
        Some(catalogue) => open(&rt, &catalogue),
        None => println!(rt; "the policy is refused"),
    }
}

/// What the versions of a policy decide, compiled; none where the text is refused.
fn catalogue_of(alloc: Global, text: &[u8]) -> Option<Catalogue> {
    let policy = policy_text::read(alloc, text).ok()?;
    compile(alloc, &policy).ok()
}

/// The identifier of a context of the policy.
fn sid_of(alloc: Global, catalogue: &Catalogue, text: &str) -> Option<Sid>
    ensures { IfSome result (λ sid. is_sid (length catalogue.now.contexts.sids) sid ≡ true) }
{
    let context = Context::read(alloc, text.as_bytes()).ok()?;
    let sid = catalogue.sids().find(&context)?;
    if catalogue.knows(sid) {
        Some(sid)
    } else {
        None
    }
}

/// Opens the board for ann, and runs what happens there.
#[tactic(auto, unfolding(policy_versions::specs::Tables::decisions_by))]
fn open(rt: &HostRuntime, catalogue: &Catalogue) -> io::Result<()> {
    let Some(ann) = sid_of(rt.alloc(), catalogue, "ann:user_r:reader_t") else {
        return println!(rt; "no context of ann");
    };
    let Some(label) = sid_of(rt.alloc(), catalogue, "sys:object_r:board_t") else {
        return println!(rt; "no context of the board");
    };
    match ClientBoard::new(rt.alloc(), catalogue, ann, label) {
        Ok(mut board) => run(rt, &mut board),
        Err(Memory) => println!(rt; "memory ran out"),
    }
}

/// Ann posts and reads, the version changes, and she reads again through the same slot.
fn run(rt: &HostRuntime, board: &mut ClientBoard<'_, Catalogue>) -> io::Result<()> {
    let alloc = rt.alloc();
    let mode = Vector::of(3);
    tell(rt, board.act(alloc, BoardCall::Open { slot: 0, mode }))?;
    tell(
        rt,
        board.act(
            alloc,
            BoardCall::Post {
                slot: 0,
                number: 12,
            },
        ),
    )?;
    tell(rt, board.act(alloc, BoardCall::Read { slot: 0 }))?;
    change(rt, board)?;
    tell(rt, board.act(alloc, BoardCall::Read { slot: 0 }))
}

/// The administrator chooses version 1: the change waits for one slot, which an update lets follow.
fn change(rt: &HostRuntime, board: &mut ClientBoard<'_, Catalogue>) -> io::Result<()> {
    match board.notify(rt.alloc(), 1) {
        Ok(number) => println!(rt; "notified {number}")?,
        Err(_) => return println!(rt; "the version is refused"),
    }
    tell_ack(rt, board.acknowledge())?;
    println!(rt; "updated, {} left", board.update(1))?;
    tell_ack(rt, board.acknowledge())
}

/// Prints what came of a call.
fn tell(rt: &HostRuntime, came: Came) -> io::Result<()> {
    match came {
        Came::Did(BoardReply::Number(number)) => println!(rt; "the board says {number}"),
        Came::Did(BoardReply::Done) => println!(rt; "done"),
        Came::Did(BoardReply::Denied { policy, .. }) => println!(rt;
            "denied under number {policy}"
        ),
        other => println!(rt; "{other:?}"),
    }
}

/// Prints how the change stands.
fn tell_ack(rt: &HostRuntime, ack: Ack) -> io::Result<()> {
    match ack {
        Ack::Behind { left } => println!(rt; "behind by {left}"),
        Ack::Done(receipt) => println!(rt; "complete {}", receipt.number),
        other => println!(rt; "{other:?}"),
    }
}
