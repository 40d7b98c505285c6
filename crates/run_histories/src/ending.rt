//! The three stations of a run are ended.

ghost use Rattle.std.specs.Prelude.{ℕ, List};
ghost use Rattle.session_text.specs.declared.session.SessionParts.{SessionParts};
ghost use Rattle.epoch_gate.specs.Known.{decider_of};
ghost use Rattle.run_histories.specs.Histories.{MayEnd, HasRun, KeepsCalls, AreOfRun};

use access_vectors::Decider;
use client_script::Stations;
use epoch_gate::Admin;
use file_manager::FileCore;
use managed_run::CoreDocket;
use manager_history::Keeper;
use port_manager::PortCore;
use process_manager::ProcessCore;
use retained_rights::Callback;
use station_end::end;

/// The keepers of the three managers, after a run.
#[derive(Drop)]
pub struct Closed<'d, D: Decider, F: Callback + Drop, P: Callback + Drop, Q: Callback + Drop> {
    pub files: Keeper<'d, FileCore<F>, D>,
    pub processes: Keeper<'d, ProcessCore<P>, D>,
    pub ports: Keeper<'d, PortCore<Q>, D>,
}

/// Ends the three stations, of which every seat is retired, and settles a change that is pending. Where a session was run there, the
/// three histories are those of a threaded run of it. Each history has exactly the entries of each retired seat under its number.
pub fn end_run<'d, D: Decider, F: Callback + Drop, P: Callback + Drop, Q: Callback + Drop>(
    stations: Stations<'d, D, F, P, Q>,
    files: Admin<CoreDocket<'d, FileCore<F>, D>, D>,
    processes: Admin<CoreDocket<'d, ProcessCore<P>, D>, D>,
    ports: Admin<CoreDocket<'d, PortCore<Q>, D>, D>,
) -> Closed<'d, D, F, P, Q>
    requires files { MayEnd stations.files files }
    requires processes { MayEnd stations.processes processes }
    requires ports { MayEnd stations.ports ports }
    ensures of_run { (session : SessionParts) (chosen : List (ℕ × ℕ)) → HasRun D.decides session chosen stations.entry files.entry processes.entry ports.entry
        → AreOfRun (D.decides (decider_of stations.entry.files)) session result.files.history result.processes.history result.ports.history }
    ensures files { KeepsCalls files.entry result.files.history }
    ensures processes { KeepsCalls processes.entry result.processes.history }
    ensures ports { KeepsCalls ports.entry result.ports.history }
{
    Closed {
        files: end(stations.files, files),
        processes: end(stations.processes, processes),
        ports: end(stations.ports, ports),
    }
}
