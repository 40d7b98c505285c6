//! The gate at work: limits, passes, the cache over three numbers, an insert that comes late, and two threads.
ghost use Rattle.std.specs.Prelude.{◌≡◌, IsTrue};
ghost use Rattle.epoch_gate.specs.Seats.{IsOfGate};
ghost use Rattle.epoch_gate.specs.Known.{decider_of, IsIdle, HasPass, seats_made, seats_retired};
ghost use Rattle.gate_ledger.specs.Seated.{IsFree};

use access_vectors::{Asker, Class, Decider, Vector};
use avc_rows::{Cached, Checked, Origin, check};
use epoch_gate::{Admin, Gate, GateFault, Seat, SeatFault, Spent};
use flask_sid::{Memory, Sid};
use gate_ledger::{Acknowledged, Ledger, Line, NotifyFault, acknowledge, call, notify};
use gate_rule::Journal;
use std::alloc::{AllocError, Global};
use std::sync::Wait;
use std::sync::atomic::{AtomicU64, Ordering};
use std::test::Fail;
use std::thread::{Threads, join};

/// A decider of two versions, in which the vector is the version's number. It counts what it is asked.
#[derive(Drop)]
struct Counting {
    asked: AtomicU64,
}

impl Decider for Counting {
    ghost use Rattle.std.specs.Prelude.{◌≡◌, ℕ, ◌<◌, ◌&&◌, nat_lt, IsTrue};
    ghost use Rattle.std.proofs.Common.{rules, arith};
    ghost use Rattle.std.proofs.lemmas.Bool.Decides.{nat_tests};

    ghost decides = { λ decider. record {
      versions = 2;
      known = λ s. nat_lt 0 s && nat_lt s 4096;
      vector = λ version s t class. version;
      label = λ version s t class. t;
      member = λ version s t class. s;
    } };

    fn versions(&self) -> u16 {
        2
    }

    fn vector(&self, ver: u8, _s: Sid, _t: Sid, _c: Class) -> Vector {
        self.asked.fetch_add(1, Ordering::SeqCst);
        Vector::of(u16::from(ver))
    }

    fn label(&self, _ver: u8, _s: Sid, t: Sid, _c: Class) -> Sid {
        t
    }

    fn member(&self, _ver: u8, s: Sid, _t: Sid, _c: Class) -> Sid {
        s
    }

    ghost closed = { λ decider. record {
      some_version = Prim.omega arith;
      few_versions = Prim.omega arith;
      sids = λ s known. Prim.grind (arith, nat_tests);
      vectors = λ version s t class below source target. Prim.omega arith;
      labels = λ version s t class below source target. target;
      members = λ version s t class below source target. source;
    } };
}

type Hall<'d> = Gate<'d, Ledger<Counting>, Counting>;

type Chair = Seat<Ledger<Counting>, Counting>;

type Office = Admin<Ledger<Counting>, Counting>;

// A notice and an acknowledgement, of which the tests know only that the administrator is free again: what they answer
// is compared when a test runs.
fn noticed(rt: &impl Wait, gate: &Hall<'_>, admin: &mut Office, ver: u8) -> Result<u32, NotifyFault>
    requires { IsOfGate gate.now admin.old × IsIdle admin.old }
    ensures free { IsOfGate gate.now admin.new × IsIdle admin.new }
    ensures seats { (seats_made admin.new ≡ seats_made admin.old) × (seats_retired admin.new ≡ seats_retired admin.old) }
{
    notify(rt, gate, admin, ver)
}

fn answered(rt: &impl Wait, gate: &Hall<'_>, admin: &mut Office) -> Result<Acknowledged, Memory>
    requires { IsOfGate gate.now admin.old × IsIdle admin.old }
    ensures free { IsOfGate gate.now admin.new × IsIdle admin.new }
    ensures seats { (seats_made admin.new ≡ seats_made admin.old) × (seats_retired admin.new ≡ seats_retired admin.old) }
{
    acknowledge(rt, gate, admin)
}

fn in_and_out(gate: &Hall<'_>, seat: &mut Chair) -> Result<(), Spent>
    requires { IsFree gate.now seat.old }
    ensures { IsFree gate.now seat.new }
{
    gate.enter(seat)?;
    gate.leave(seat);
    Ok(())
}

#[test]
fn limits_of_a_gate(rt: HostRuntime) -> Result<(), Fail> {
    let alloc = rt.alloc();
    let decider = Counting {
        asked: AtomicU64::new(0),
    };
    for (seats, quota, most, fault) in [
        (0, 3, 9, GateFault::Seats(0)),
        (65, 3, 9, GateFault::Seats(65)),
        (1, 0, 9, GateFault::Quota(0)),
        (1, 536_870_913, 9, GateFault::Quota(536_870_913)),
        (1, 3, 0, GateFault::Most(0)),
        (1, 3, 1_048_576, GateFault::Most(1_048_576)),
    ] {
        let made = Gate::new(
            alloc,
            Ledger::new(alloc, &decider),
            &decider,
            seats,
            quota,
            most,
        );
        assert_eq!(rt; made.err(), Some(fault));
    }
    let (gate, mut admin) = Gate::new(alloc, Ledger::new(alloc, &decider), &decider, 1, 3, 2)?;
    let mut seat = gate.seat(&mut admin)?;
    assert_eq!(rt; gate.seat(&mut admin).err(), Some(SeatFault::Full));
    in_and_out(&gate, &mut seat)?;
    in_and_out(&gate, &mut seat)?;
    in_and_out(&gate, &mut seat)?;
    assert_eq!(rt; gate.enter(&mut seat), Err(Spent));
    Ok(())
}

#[test]
fn older_passes_are_counted(rt: HostRuntime) -> Result<(), Fail> {
    let alloc = rt.alloc();
    let decider = Counting {
        asked: AtomicU64::new(0),
    };
    let (gate, mut admin) = Gate::new(alloc, Ledger::new(alloc, &decider), &decider, 2, 9, 9)?;
    let mut first = gate.seat(&mut admin)?;
    let mut second = gate.seat(&mut admin)?;
    gate.enter(&mut first)?;
    assert_eq!(rt; noticed(&rt, &gate, &mut admin, 1), Ok(1));
    gate.enter(&mut second)?;
    assert_eq!(rt; second.pass(), Some((1, 1)));
    assert_eq!(rt; answered(&rt, &gate, &mut admin), Ok(Acknowledged::Busy(1)));
    gate.leave(&mut second);
    assert_eq!(rt; answered(&rt, &gate, &mut admin), Ok(Acknowledged::Busy(1)));
    gate.leave(&mut first);
    assert_eq!(rt; answered(&rt, &gate, &mut admin), Ok(Acknowledged::Done(1)));
    gate.retire(first, &mut admin);
    gate.retire(second, &mut admin);
    assert_eq!(rt; admin.out(), 0);
    let ledger = gate.close(admin);
    assert_eq!(rt;
        ledger.lines.as_slice(),
        [Line::Noticed(1, 1), Line::Settled(1)].as_slice()
    );
    Ok(())
}

fn sids() -> Option<(Sid, Sid)> {
    Some((Sid::of(1)?, Sid::of(2)?))
}

// A check of a key, of which the tests know only that the seat keeps its pass: what it answers is compared when a test runs.
fn checked(gate: &Hall<'_>, seat: &mut Chair, s: Sid, t: Sid) -> Checked
    requires { IsOfGate gate.now seat.old × HasPass seat.old × IsIdle seat.old }
    ensures { IsOfGate gate.now seat.new × HasPass seat.new × IsIdle seat.new }
{
    check(gate, seat, s, t, Class::File)
}

#[test]
fn cache_over_three_numbers(rt: HostRuntime) -> Result<(), Fail> {
    let alloc = rt.alloc();
    let decider = Counting {
        asked: AtomicU64::new(0),
    };
    let (s, t) = sids().ok_or("identifiers")?;
    let (gate, mut admin) = Gate::new(alloc, Ledger::new(alloc, &decider), &decider, 1, 9, 9)?;
    let mut seat = gate.seat(&mut admin)?;

    gate.enter(&mut seat)?;
    let asked = checked(&gate, &mut seat, s, t);
    assert_eq!(rt;
        (asked.vector, asked.origin),
        (Vector::of(0), Origin::Asked)
    );
    let hit = checked(&gate, &mut seat, s, t);
    assert_eq!(rt; (hit.vector, hit.origin), (Vector::of(0), Origin::Hit));
    gate.leave(&mut seat);

    assert_eq!(rt; noticed(&rt, &gate, &mut admin, 1), Ok(1));
    assert_eq!(rt; answered(&rt, &gate, &mut admin), Ok(Acknowledged::Done(1)));
    gate.enter(&mut seat)?;
    let changed = checked(&gate, &mut seat, s, t);
    assert_eq!(rt;
        (changed.vector, changed.origin),
        (Vector::of(1), Origin::Asked)
    );
    gate.leave(&mut seat);

    assert_eq!(rt; noticed(&rt, &gate, &mut admin, 0), Ok(2));
    assert_eq!(rt; answered(&rt, &gate, &mut admin), Ok(Acknowledged::Done(2)));
    gate.enter(&mut seat)?;
    let back = checked(&gate, &mut seat, s, t);
    assert_eq!(rt; (back.vector, back.origin), (Vector::of(0), Origin::Asked));
    gate.leave(&mut seat);
    assert_eq!(rt; decider.asked.load(Ordering::SeqCst), 3);
    Ok(())
}

// The seat asks twice by an asker of the cache, which then hands it back.
fn asked_twice<V: Journal<D>, D: Decider>(
    gate: &Gate<'_, V, D>,
    seat: &mut Seat<V, D>,
    s: Sid,
    t: Sid,
) -> (Vector, u64)
    requires seat { IsOfGate gate.now seat.old × HasPass seat.old }
    requires known { IsTrue ((D.decides (decider_of gate.now)).known s) × IsTrue ((D.decides (decider_of gate.now)).known t) }
    ensures { IsOfGate gate.now seat.new × HasPass seat.new }
{
    let mut asker = Cached::new(gate, seat);
    let _first = asker.vector(s, t, Class::File);
    let second = asker.vector(s, t, Class::File);
    let Cached {
        gate: _,
        seat: _,
        number: _,
        plainly,
    } = asker;
    (second, plainly.count)
}

#[test]
fn asker_hands_its_seat_back(rt: HostRuntime) -> Result<(), Fail> {
    let alloc = rt.alloc();
    let decider = Counting {
        asked: AtomicU64::new(0),
    };
    let (s, t) = sids().ok_or("identifiers")?;
    let (gate, mut admin) = Gate::new(alloc, Ledger::new(alloc, &decider), &decider, 1, 9, 9)?;
    let mut seat = gate.seat(&mut admin)?;
    gate.enter(&mut seat)?;
    assert_eq!(rt; asked_twice(&gate, &mut seat, s, t), (Vector::of(0), 2));
    assert_eq!(rt;
        check(&gate, &mut seat, s, t, Class::File).origin,
        Origin::Hit
    );
    gate.leave(&mut seat);
    assert_eq!(rt; decider.asked.load(Ordering::SeqCst), 1);
    Ok(())
}

// The seat fills a row late, under its old number; a newer pass is not served by it.
fn fill_late(
    rt: &impl Wait,
    gate: &Hall<'_>,
    admin: &mut Office,
    old: &mut Chair,
    new: &mut Chair,
    s: Sid,
    t: Sid,
) -> Option<(Vector, Origin)>
    requires seats { IsFree gate.now old.old × IsFree gate.now new.old }
    requires admin { IsOfGate gate.now admin.old × IsIdle admin.old }
    requires known { IsTrue ((⟦<Counting as Decider>⟧.decides (decider_of gate.now)).known s) × IsTrue ((⟦<Counting as Decider>⟧.decides (decider_of gate.now)).known t) }
{
    gate.enter(old).ok()?;
    if gate.look(old, s, t, Class::File).is_some() {
        return None;
    }
    noticed(rt, gate, admin, 1).ok()?;
    gate.enter(new).ok()?;
    let (_, version) = old.pass()?;
    let vector = gate.decider().vector(version, s, t, Class::File);
    gate.fill(old, s, t, Class::File, vector);
    let checked = check(gate, new, s, t, Class::File);
    gate.leave(old);
    gate.leave(new);
    Some((checked.vector, checked.origin))
}

#[test]
fn insert_that_comes_late(rt: HostRuntime) -> Result<(), Fail> {
    let alloc = rt.alloc();
    let decider = Counting {
        asked: AtomicU64::new(0),
    };
    let (s, t) = sids().ok_or("identifiers")?;
    let (gate, mut admin) = Gate::new(alloc, Ledger::new(alloc, &decider), &decider, 2, 9, 9)?;
    let mut old = gate.seat(&mut admin)?;
    let mut new = gate.seat(&mut admin)?;
    let checked = fill_late(&rt, &gate, &mut admin, &mut old, &mut new, s, t);
    assert_eq!(rt; checked, Some((Vector::of(1), Origin::Asked)));
    Ok(())
}

// A thousand calls under one pass, after which the seat is free again.
fn thousand<D: Decider, R: Wait>(
    rt: &R,
    gate: &Gate<'_, Ledger<D>, D>,
    seat: &mut Seat<Ledger<D>, D>,
)
    requires { IsFree gate.now seat.old }
    ensures { IsFree gate.now seat.new }
{
    if gate.enter(seat).is_err() {
        return;
    }
    for mark in 0..1000 {
        let _ = call(rt, gate, seat, mark);
    }
    gate.leave(seat);
}

fn worked<D: Decider, R: Wait>(
    rt: &R,
    gate: &Gate<'_, Ledger<D>, D>,
    mut seat: Seat<Ledger<D>, D>,
) -> Seat<Ledger<D>, D>
    requires { IsFree gate.now seat }
    ensures { IsFree gate.now result }
{
    thousand(rt, gate, &mut seat);
    seat
}

// Two seats at work beside each other, after which both are free again.
fn beside<D: Decider + Sync, R: Threads + Wait + Sync>(
    rt: &R,
    gate: &Gate<'_, Ledger<D>, D>,
    one: Seat<Ledger<D>, D>,
    two: Seat<Ledger<D>, D>,
) -> (Seat<Ledger<D>, D>, Seat<Ledger<D>, D>)
    requires { IsFree gate.now one × IsFree gate.now two }
    ensures { IsFree gate.now result.0 × IsFree gate.now result.1 }
{
    join(
        rt,
        move || -> Seat<Ledger<D>, D>
            requires { IsFree gate.now one }
            ensures { IsFree gate.entry.now result }
        { worked(rt, gate, one) },
        move || -> Seat<Ledger<D>, D>
            requires { IsFree gate.now two }
            ensures { IsFree gate.entry.now result }
        { worked(rt, gate, two) },
    )
}

// The marks of a caller's calls, in order.
fn marks_of(alloc: Global, lines: &[Line], number: u8) -> Result<Vec<u32>, AllocError> {
    let mut marks = Vec::new(alloc);
    for line in lines {
        if let Line::Op(caller, mark, _) = line {
            if *caller == number {
                marks.push(*mark)?;
            }
        }
    }
    Ok(marks)
}

#[test]
fn two_threads_of_a_thousand_turns(rt: HostRuntime) -> Result<(), Fail> {
    let alloc = rt.alloc();
    let decider = Counting {
        asked: AtomicU64::new(0),
    };
    let (gate, mut admin) = Gate::new(alloc, Ledger::new(alloc, &decider), &decider, 2, 9, 9)?;
    let one = gate.seat(&mut admin)?;
    let two = gate.seat(&mut admin)?;
    let (one, two) = beside(&rt, &gate, one, two);
    gate.retire(one, &mut admin);
    gate.retire(two, &mut admin);
    let ledger = gate.close(admin);
    let in_order: Vec<u32> = (0..1000).collect(alloc)?;
    assert_eq!(rt; ledger.lines.len(), 2000);
    assert_eq!(rt; marks_of(alloc, ledger.lines.as_slice(), 0)?, in_order);
    assert_eq!(rt; marks_of(alloc, ledger.lines.as_slice(), 1)?, in_order);
    Ok(())
}
