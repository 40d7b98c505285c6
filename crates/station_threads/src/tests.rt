//! The tests.

use access_vectors::perms::{FILE_READ, FILE_WRITE};
use access_vectors::{Asked, Perm, Questions, Vector};
use example_board::{BoardCall, BoardReply};
use flask_sid::Sid;
use manager_history::Entry;
use station_rounds::{
    Pace, Script, Versions, Work, judged, opened, run_round, seated, work, work_beside,
};
use std::alloc::Global;
use std::test::Fail;

/// How many changes there are beside the callers.
const CHANGES: u32 = 50;

/// How many calls each caller makes beside each of them.
const STEP: u32 = 40;

/// How many calls each caller makes.
const CALLS: u32 = 2000;

#[test]
fn a_change_takes_a_right_from_callers_at_work(rt: HostRuntime) -> Result<(), Fail> {
    let alloc = rt.alloc();
    let decider = Versions;
    let (board, mut office) = opened(alloc, &decider).ok_or("memory")?;
    let callers = seated(alloc, &board, &mut office).ok_or("seats")?;
    let free = Pace::of(0);
    let opens = Script {
        board: &board,
        work: Work::Opens,
        calls: 1,
        pace: &free,
    };
    let callers = work(&rt, alloc, &opens, callers);
    let pace = Pace::of(STEP);
    let reads = Script {
        board: &board,
        work: Work::Reads,
        calls: 2 * STEP,
        pace: &pace,
    };
    let done = work_beside(&rt, alloc, &reads, callers, (office, 1));
    let (callers, _office, settled) = done;
    assert_eq!(rt; settled, 1);
    let last = Script {
        board: &board,
        work: Work::Reads,
        calls: 1,
        pace: &free,
    };
    let callers = work(&rt, alloc, &last, callers);
    assert_eq!(rt; callers.len(), 2);
    assert!(rt;
        callers
            .iter()
            .all(|caller| caller.denied && !caller.regained)
    );
    Ok(())
}

#[test]
fn two_callers_beside_fifty_changes(rt: HostRuntime) -> Result<(), Fail> {
    let done = run_round(&rt, rt.alloc(), CHANGES, STEP).ok_or("memory")?;
    assert_eq!(rt; done.settled, CHANGES);
    let plain = done.plain.ok_or("an entry is not lawful")?;
    assert_eq!(rt; plain.calls, [CALLS, CALLS]);
    assert_eq!(rt; plain.settled, CHANGES);
    assert!(rt; plain.moves >= CHANGES / 2 || !done.paced);
    Ok(())
}

/// A read of client 0 through a free slot, under a policy number.
fn read_of(alloc: Global, mark: u32, number: u32) -> Entry<BoardCall, BoardReply> {
    Entry::Op {
        caller: 0,
        mark,
        call: BoardCall::Read { slot: 0 },
        number,
        asked: Questions::new(alloc),
        reply: BoardReply::BadSlot,
    }
}

#[test]
fn the_judge_refuses_what_is_not_lawful(rt: HostRuntime) -> Result<(), Fail> {
    let alloc = rt.alloc();
    let notice = Entry::Notice {
        number: 1,
        version: 1,
    };
    let lawful = vec![in alloc;
        read_of(alloc, 0, 0),
        notice,
        read_of(alloc, 1, 0),
        Entry::Ack { number: 1 },
        read_of(alloc, 2, 1),
    ]?;
    assert!(rt; judged(alloc, lawful.as_slice())?.is_some());
    let notice = Entry::Notice {
        number: 1,
        version: 1,
    };
    let below = vec![in alloc; notice, Entry::Ack { number: 1 }, read_of(alloc, 0, 0)]?;
    assert!(rt; judged(alloc, below.as_slice())?.is_none());
    let twice = vec![in alloc; read_of(alloc, 0, 0), read_of(alloc, 0, 0)]?;
    assert!(rt; judged(alloc, twice.as_slice())?.is_none());
    let unnoticed = vec![in alloc; Entry::Ack { number: 1 }]?;
    assert!(rt; judged(alloc, unnoticed.as_slice())?.is_none());
    Ok(())
}

/// A question about a permission that client 0 has on a target, or has not.
fn question(t: u16, perm: Perm, yes: bool) -> Result<Asked, Fail> {
    let s = Sid::of(1).ok_or("no identifier")?;
    let t = Sid::of(t).ok_or("no identifier")?;
    Ok(Asked { s, t, perm, yes })
}

/// Whether the judge takes it that client 0 opens its slot for reading and writing under a number, with these questions and this reply, where
/// version 1 is pending as number 1.
fn is_taken(alloc: Global, number: u32, asked: &[Asked], reply: BoardReply) -> Result<bool, Fail> {
    let mut questions = Questions::new(alloc);
    for question in asked {
        questions.add(*question).ok().ok_or("memory")?;
    }
    let notice = Entry::Notice {
        number: 1,
        version: 1,
    };
    let opens = Entry::Op {
        caller: 0,
        mark: 0,
        call: BoardCall::Open {
            slot: 0,
            mode: Vector::of(3),
        },
        number,
        asked: questions,
        reply,
    };
    let history = vec![in alloc; notice, opens]?;
    Ok(judged(alloc, history.as_slice())?.is_some())
}

#[test]
fn the_judge_compares_replies_and_questions(rt: HostRuntime) -> Result<(), Fail> {
    let alloc = rt.alloc();
    let done = BoardReply::Done;
    let read = question(1, FILE_READ, true)?;
    let write = question(1, FILE_WRITE, true)?;
    assert!(rt; is_taken(alloc, 0, &[read, write], done)?);
    assert!(rt;
        !is_taken(alloc, 0, &[read, write], BoardReply::SlotUsed)?,
        "another reply"
    );
    assert!(rt;
        !is_taken(alloc, 0, &[read], done)?,
        "a question is missing"
    );
    assert!(rt; !is_taken(alloc, 0, &[], done)?, "all are missing");
    assert!(rt;
        !is_taken(alloc, 0, &[read, write, write], done)?,
        "one too many"
    );
    assert!(rt;
        !is_taken(alloc, 0, &[write, read], done)?,
        "in another order"
    );
    let no = question(1, FILE_WRITE, false)?;
    assert!(rt; !is_taken(alloc, 0, &[read, no], done)?, "another answer");
    let foreign = question(2, FILE_WRITE, true)?;
    assert!(rt;
        !is_taken(alloc, 0, &[read, foreign], done)?,
        "of another target"
    );
    Ok(())
}

#[test]
fn the_judge_compares_questions_up_to_the_first_no(rt: HostRuntime) -> Result<(), Fail> {
    let alloc = rt.alloc();
    let denied = BoardReply::Denied {
        perm: FILE_READ,
        policy: 1,
    };
    let no = question(1, FILE_READ, false)?;
    let write = question(1, FILE_WRITE, true)?;
    assert!(rt; is_taken(alloc, 1, &[no], denied)?);
    assert!(rt;
        !is_taken(alloc, 1, &[no, write], denied)?,
        "asked after a no"
    );
    assert!(rt;
        !is_taken(alloc, 1, &[no], BoardReply::Done)?,
        "done in place of denied"
    );
    assert!(rt;
        !is_taken(alloc, 0, &[no], denied)?,
        "denied under number 0"
    );
    Ok(())
}
