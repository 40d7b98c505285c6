//! Callers and changes beside each other, and the end of the board.

ghost use Rattle.std.specs.Prelude.{◌≡◌, ℕ, length, All};
ghost use Rattle.std.specs.List.{AllZip};
ghost use Rattle.epoch_gate.specs.Seats.{IsOfGate};
ghost use Rattle.epoch_gate.specs.Known.{IsIdle, seats_made};
ghost use Rattle.station_rounds.specs.Seated.{IsFreeAt};

use crate::board::{Board, Office};
use crate::callers::{Caller, Script};
use crate::changes::{Changes, Place};
use access_vectors::Decider;
use managed::Managed;
use managed_run::Held;
use std::alloc::Global;
use std::sync::Wait;
use std::thread::Threads;
use thread_tasks::{Crew, run_beside, run_each};

/// Runs the callers' work, a thread for each.
pub fn work<'d, R: Threads + Wait + Sync, D: Decider + Sync>(
    rt: &R,
    alloc: Global,
    script: &Script<'_, 'd, D>,
    callers: Vec<Caller<'d, D>>,
) -> Vec<Caller<'d, D>>
    requires { All (λ caller. IsFreeAt script.now.board.now caller.seat) callers.items }
    ensures { All (λ caller. IsFreeAt script.entry.now.board.now caller.seat) result.items }
{
    let mut callers = callers;
    run_each(rt, alloc, script, callers.as_mut_slice());
    callers
}

/// Runs the callers' work and the administrator's beside it, whatever its manager is, and joins them all.
fn run_both<'d, R: Threads + Wait + Sync, D: Decider + Sync, M: Managed + Send + Drop>(
    rt: &R,
    alloc: Global,
    script: &Script<'_, 'd, D>,
    callers: Vec<Caller<'d, D>>,
    place: Place<M>,
) -> (Vec<Caller<'d, D>>, Place<M>)
    requires { All (λ caller. IsFreeAt script.now.board.now caller.seat) callers.items }
    ensures callers { All (λ caller. IsFreeAt script.entry.now.board.now caller.seat) result.0.items }
    ensures place { M.same place.held result.1.held }
{
    let crew = Crew {
        task: script,
        each: callers,
    };
    let changes = Changes { pace: script.pace };
    run_beside(rt, alloc, crew, &changes, place)
}

/// Runs the callers' work beside so many changes of their board. Answers the callers, the administrator, and how many changes were
/// settled.
pub fn work_beside<'d, R: Threads + Wait + Sync, D: Decider + Sync>(
    rt: &R,
    alloc: Global,
    script: &Script<'_, 'd, D>,
    callers: Vec<Caller<'d, D>>,
    changes: (Office<'d, D>, u32),
) -> (Vec<Caller<'d, D>>, Office<'d, D>, u32)
    requires callers { All (λ caller. IsFreeAt script.now.board.now caller.seat) callers.items }
    requires office { IsOfGate script.now.board.now changes.0 × IsIdle changes.0 }
    requires made { seats_made changes.0 ≡ 0 → ⊥ }
    ensures callers { All (λ caller. IsFreeAt script.entry.now.board.now caller.seat) result.0.items }
    ensures office { IsOfGate script.entry.now.board.now result.1 × IsIdle result.1 }
{
    let (office, times) = changes;
    let held = Held::new(script.board, office);
    let place = Place {
        held,
        times,
        settled: 0,
    };
    let done = run_both(rt, alloc, script, callers, place);
    let (callers, place) = done;
    let Place { held, settled, .. } = place;
    (callers, held.release(), settled)
}

/// Retires the callers' seats.
pub fn retire_all<'d, D: Decider>(
    board: &Board<'d, D>,
    callers: Vec<Caller<'d, D>>,
    office: &mut Office<'d, D>,
)
    requires callers { All (λ caller. IsFreeAt board.now caller.seat) callers.items }
    requires office { IsOfGate board.now office.old × IsIdle office.old }
    ensures { IsOfGate board.now office.new × IsIdle office.new }
{
    let mut callers = callers;
    'callers: while let Some(caller) = callers.pop() {
        let Caller { seat, .. } = caller;
        board.retire(seat, office);
    }
}
