//! A station is closed, and its keeper settled.

ghost use Rattle.std.specs.Prelude.{◌≡◌, ◌<◌, [], length};
ghost use Rattle.manager_history.specs.Histories.{start_of, IsLawful};
ghost use Rattle.epoch_gate.specs.Seats.{IsOfGate};
ghost use Rattle.epoch_gate.specs.Known.{decider_of, seats_made, seats_retired, IsIdle};
ghost use Rattle.station_end.specs.Settling.{settled, HasSettled};

use access_vectors::{Decider, Steps};
use epoch_gate::Admin;
use managed_run::{CoreDocket, Station};
use manager_history::{Core, Keeper};
use std::marker::Brand;
use std::sync::ledger::{Blank, Ledger};

/// Lets every stale slot follow the pending number, under a ledger: the blank's, which counts the steps.
fn follow_all<'d, C: Core, D: Decider, L: Ledger>(keeper: &mut Keeper<'d, C, D>, blank: Blank)
    requires name { blank.name ≡ L.name }
    requires parts { blank.parts ≡ L.parts }
    requires some { 0 < L.parts }
    ensures none { C.stale keeper.new.core ≡ [] }
    ensures history { keeper.new.history ≡ keeper.old.history }
    ensures phase { keeper.new.phase ≡ keeper.old.phase }
    ensures decider { keeper.new.decider ≡ keeper.old.decider }
    ensures manager { keeper.new.manager ≡ keeper.old.manager }
    ensures opening { C.opening keeper.new.core ≡ C.opening keeper.old.core }
{
    let left = keeper.left();
    let mut steps = Steps::<L>::new(blank);
    let _ = keeper.update(left, &mut steps);
}

/// Settles a keeper of which no pass is out any more: where a change is pending every stale slot follows its number, and it is
/// acknowledged. It takes no memory.
pub fn settle<'d, C: Core, D: Decider>(keeper: Keeper<'d, C, D>) -> Keeper<'d, C, D>
    ensures settled { result.history ≡ settled keeper.entry.history }
    ensures decider { result.decider ≡ keeper.entry.decider }
    ensures manager { result.manager ≡ keeper.entry.manager }
    ensures opening { C.opening result.core ≡ C.opening keeper.entry.core }
    ensures lawful { IsLawful C.plain C.formed (D.decides result.decider) (start_of (C.opening result.core)) result.history }
{
    let mut keeper = keeper;
    let _before = keeper.entries();
    follow_all::<C, D, Brand>(&mut keeper, Blank::new(1));
    let _ = keeper.acknowledge(0);
    let _after = keeper.entries();
    keeper
}

/// Ends a station once every seat is retired, and settles its keeper. The keeper's history has for each retired number exactly the
/// entries of its seat, and for a pending change the acknowledgement at its end.
pub fn end<'d, C: Core + Drop, D: Decider>(
    station: Station<'d, C, D>,
    admin: Admin<CoreDocket<'d, C, D>, D>,
) -> Keeper<'d, C, D>
    requires gate { IsOfGate station admin }
    requires out { seats_made admin ≡ length (seats_retired admin) }
    requires idle { IsIdle admin }
    ensures ended { HasSettled admin.entry result.history }
    ensures decider { result.decider ≡ decider_of station.entry }
    ensures manager { result.manager ≡ station.entry.fixed.opening.manager }
    ensures opening { C.opening result.core ≡ C.opening station.entry.fixed.opening.core }
    ensures lawful { IsLawful C.plain C.formed (D.decides (decider_of station.entry)) (start_of (C.opening station.entry.fixed.opening.core)) result.history }
{
    let keeper = station.close(admin);
    settle(keeper)
}
