//! Tests of a keeper over a core of one object.

ghost use Rattle.std.specs.Prelude.{false, ◌≡◌, ◌<◌};

use crate::by_version::ByVersion;
use access_vectors::perms::FILE_READ;
use access_vectors::{Asker, Decider, Phase, Plainly, Questions, Steps, ask};
use flask_sid::{Memory, Sid};
use manager_history::{Ack, Answer, Core, Entry, Keeper, NotifyFault, Passes, Receipt};
use std::alloc::{AllocError, Global};
use std::marker::Brand;
use std::sync::ledger::{Blank, Ledger};
use std::test::Fail;

/// A core of one object: its one call asks for leave to read it, and it keeps whether the last caller had it.
#[derive(Drop)]
struct Reader {
    sid: Sid,
    phase: Phase,
    last: bool,
}

impl Core for Reader {
    ghost use Rattle.std.specs.Prelude.{ℕ, Bool, true, false, List, [], ◌∷◌, None, Some, is_some, refl, IsTrue, if◌then◌else◌, ◌≡◌};
    ghost use Rattle.std.proofs.Common.{ap, sym};
    ghost use Rattle.std.specs.FinMap as maps;
    ghost use Rattle.std.specs.Ordering.{nat_cmp};
    ghost use Rattle.std.proofs.lemmas.List.Elements.{All-cons, All-nil};
    ghost use Rattle.access_vectors.specs.declared.class.Class.TheVariants.{File};
    ghost use Rattle.access_vectors.specs.Asking.{question};
    ghost use Rattle.access_vectors.specs.Perms.{file_read};
    ghost use Rattle.manager_history.specs.Answers.{AreQuestionsOf, IsTold};
    ghost use Rattle.access_vectors.specs.NoSlots.{no_follows, none_are_stale, none_named};

    type Call = Sid;

    type Reply = (bool, u32);

    ghost State = { Bool };

    ghost opening = { λ reader. false };

    ghost state = { λ reader. reader.last };

    ghost phase = { λ reader. reader.phase };

    ghost plain = { λ d last caller sid number version. let q = question d version sid sid file_read in
        record { reply = (q.yes, number); state = q.yes; asked = q ∷ [] } };

    ghost formed = { λ d last caller sid. IsTrue (d.known sid) };

    ghost denial_of = { λ reply. if reply.0 then None else Some (record { perm = file_read; policy = reply.1 }) };

    ghost class = { File };

    ghost pair_of = { λ last place. None };

    ghost use_of = { λ caller sid. None };

    ghost follows = { λ reader. no_follows };

    ghost followed = { λ d last caller sid number version reply follows. no_follows };

    ghost stale = { λ reader. [] };

    ghost fits = { λ d reader. Unit {0} };

    fn call<A: Asker>(
        &mut self,
        alloc: Global,
        caller: u8,
        call: &Sid,
        number: u32,
        asker: &mut A,
        asked: &mut Questions,
    ) -> Result<((bool, u32), (bool, u32)), Memory> {
        let yes = ask(asker, asked, *call, *call, FILE_READ)?;
        self.last = yes;
        Ok(((yes, number), (yes, number)))
    }

    fn start<D: Decider>(
        &mut self,
        alloc: Global,
        decider: &D,
        number: u32,
        old: u8,
        new: u8,
    ) -> Result<u64, Memory> {
        self.phase = Phase::Pending { number, old, new };
        Ok(0)
    }

    fn revise<D: Decider, L: Ledger>(&mut self, decider: &D, k: u64, steps: &mut Steps<L>) -> u64 {
        0
    }

    fn left(&self) -> u64 {
        0
    }

    fn settle(&mut self) {
        if let Phase::Pending { number, new, .. } = self.phase {
            self.phase = Phase::Settled {
                number,
                version: new,
            };
        }
    }

    ghost honest = { λ d last caller sid number version. let q = question d version sid sid file_read in
        let ends : (b : Bool) → q.yes ≡ b
        → AreQuestionsOf (if b then None else Some (record { perm = file_read; policy = number })) number (q ∷ [])
        = elim [
          | true ↦ λ e. All-cons (λ one. one.yes ≡ true) q [] e (All-nil (λ one. one.yes ≡ true))
          | false ↦ λ e. (refl, record { before = []; last = q; asked_is = refl; allowed = All-nil (λ one. one.yes ≡ true); refused = e; names = refl })
        ] in
        record { told = All-cons (IsTold d version) q [] refl (All-nil (IsTold d version)); ends = ends q.yes refl } };

    ghost formed_stays = { λ d last caller sid number version other later formed next. next };

    ghost are_stale = { λ d reader fits. none_are_stale d File reader.phase (λ place. None) };

    ghost are_named = { λ d reader fits. none_named reader.phase };

    ghost are_used = { λ d reader fits place. ap is_some (sym (maps.get-from_sorted nat_cmp [] place tt)) };
}

fn update_counted<L: Ledger>(
    keeper: &mut Keeper<'_, Reader, ByVersion>,
    k: u64,
    blank: Blank,
) -> u64
    requires name { blank.name ≡ L.name }
    requires parts { blank.parts ≡ L.parts }
    requires some { 0 < L.parts }
{
    let mut steps = Steps::<L>::new(blank);
    keeper.update(k, &mut steps)
}

fn settled_reader(sid: Sid) -> Reader
    ensures phase { result.phase ≡ Phase.Settled 0 0 }
    ensures last { result.last ≡ false }
{
    Reader {
        sid,
        phase: Phase::Settled {
            number: 0,
            version: 0,
        },
        last: false,
    }
}

#[test]
fn a_change_runs_from_notice_to_acknowledgement(rt: HostRuntime) -> Result<(), Fail> {
    let alloc = rt.alloc();
    let decider = ByVersion;
    let sid = Sid::of(5).ok_or("a number in range")?;
    let mut keeper = Keeper::new(alloc, settled_reader(sid), 2, &decider);
    assert_eq!(rt; keeper.notify(alloc, 2, 9), Err(NotifyFault::NoVersion));
    assert_eq!(rt; keeper.notify(alloc, 1, 9), Ok(1));
    assert_eq!(rt; keeper.notify(alloc, 1, 9), Err(NotifyFault::Pending(1)));
    assert_eq!(rt; update_counted::<Brand>(&mut keeper, 7, Blank::new(1)), 0);
    assert_eq!(rt; keeper.acknowledge(1), Ack::Busy { older: 1 });
    assert_eq!(rt;
        keeper.acknowledge(0),
        Ack::Done(Receipt {
            manager: 2,
            number: 1
        })
    );
    assert_eq!(rt; keeper.acknowledge(0), Ack::Idle);
    assert_eq!(rt;
        keeper.phase(),
        Phase::Settled {
            number: 1,
            version: 1
        }
    );
    assert_eq!(rt; keeper.notify(alloc, 1, 1), Err(NotifyFault::Spent));
    Ok(())
}

/// The reply of a call, if it was done.
fn done<R: Drop>(answer: Answer<R>) -> Option<R> {
    match answer {
        Answer::Did(reply) => Some(reply),
        Answer::Aborted => None,
    }
}

/// The marks of calls, and the numbers of the other entries.
fn marks_of(alloc: Global, keeper: &Keeper<'_, Reader, ByVersion>) -> Result<Vec<u32>, AllocError> {
    let mut marks = Vec::new(alloc);
    for entry in keeper.entries() {
        marks.push(match entry {
            Entry::Op { mark, .. } | Entry::Aborted { mark, .. } => *mark,
            Entry::Notice { number, .. } | Entry::Ack { number } | Entry::Forced { number } =>
                *number,
        })?;
    }
    Ok(marks)
}

#[test]
fn the_history_is_what_was_done(rt: HostRuntime) -> Result<(), Fail> {
    let alloc = rt.alloc();
    let decider = ByVersion;
    let sid = Sid::of(5).ok_or("a number in range")?;
    let mut keeper = Keeper::new(alloc, settled_reader(sid), 2, &decider);
    let mut before = Plainly::new(&decider, 0);
    let mut after = Plainly::new(&decider, 1);
    let first = keeper.call(alloc, 0, 10, sid, 0, &mut before)?;
    assert_eq!(rt; done(first), Some((false, 0)));
    assert_eq!(rt; keeper.notify(alloc, 1, 9), Ok(1));
    let second = keeper.call(alloc, 0, 11, sid, 1, &mut after)?;
    assert_eq!(rt; done(second), Some((true, 1)));
    let marks = marks_of(alloc, &keeper)?;
    assert_eq!(rt; marks.as_slice(), [10, 1, 11].as_slice());
    Ok(())
}

#[test]
fn a_call_below_a_forced_number_is_aborted(rt: HostRuntime) -> Result<(), Fail> {
    let alloc = rt.alloc();
    let decider = ByVersion;
    let sid = Sid::of(5).ok_or("a number in range")?;
    let mut keeper = Keeper::new(alloc, settled_reader(sid), 2, &decider);
    let mut asker = Plainly::new(&decider, 0);
    assert_eq!(rt; keeper.force(), Ack::Idle);
    assert_eq!(rt; keeper.notify(alloc, 1, 9), Ok(1));
    let receipt = Receipt {
        manager: 2,
        number: 1,
    };
    assert_eq!(rt; keeper.force(), Ack::Done(receipt));
    let answer = keeper.call(alloc, 0, 12, sid, 0, &mut asker)?;
    assert_eq!(rt; done(answer), None);
    let marks = marks_of(alloc, &keeper)?;
    assert_eq!(rt; marks.as_slice(), [1, 1, 12].as_slice());
    Ok(())
}

#[test]
fn older_passes_are_counted(rt: HostRuntime) {
    let mut passes = Passes::new();
    passes.enter(0, 3);
    passes.enter(63, 4);
    assert_eq!(rt; passes.older(3), 0);
    assert_eq!(rt; passes.older(4), 1);
    assert_eq!(rt; passes.older(5), 2);
    assert_eq!(rt; passes.at(4), 1);
    assert_eq!(rt; passes.at(5), 0);
    assert_eq!(rt; passes.held(0), Some(3));
    passes.leave(0);
    assert_eq!(rt; passes.held(0), None);
    assert_eq!(rt; passes.older(5), 1);
}
