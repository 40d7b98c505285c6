//! A client's seats are retired.

ghost use Rattle.epoch_gate.specs.Seats.{IsOfGate};
ghost use Rattle.epoch_gate.specs.Calls.{HasRetired};
ghost use Rattle.run_histories.specs.Retiring.{MayLeave};

use access_vectors::Decider;
use client_script::{Seats, Stations};
use epoch_gate::Admin;
use file_manager::FileCore;
use managed_run::CoreDocket;
use port_manager::PortCore;
use process_manager::ProcessCore;
use retained_rights::Callback;

/// Retires a client's seat of each station: its administrator then has the seat's own entries under the client's number.
pub fn retire_client<'d, D: Decider, F: Callback + Drop, P: Callback + Drop, Q: Callback + Drop>(
    stations: &Stations<'d, D, F, P, Q>,
    seats: Seats<'d, D, F, P, Q>,
    files: &mut Admin<CoreDocket<'d, FileCore<F>, D>, D>,
    processes: &mut Admin<CoreDocket<'d, ProcessCore<P>, D>, D>,
    ports: &mut Admin<CoreDocket<'d, PortCore<Q>, D>, D>,
)
    requires files { IsOfGate stations.now.files files.old }
    requires processes { IsOfGate stations.now.processes processes.old }
    requires ports { IsOfGate stations.now.ports ports.old }
    requires seats { MayLeave stations.now seats }
    ensures files { IsOfGate stations.entry.now.files files.new × HasRetired files.old seats.entry.files files.new }
    ensures processes { IsOfGate stations.entry.now.processes processes.new × HasRetired processes.old seats.entry.processes processes.new }
    ensures ports { IsOfGate stations.entry.now.ports ports.new × HasRetired ports.old seats.entry.ports ports.new }
{
    let Seats {
        files: of_files,
        processes: of_processes,
        ports: of_ports,
    } = seats;
    stations.files.retire(of_files, files);
    stations.processes.retire(of_processes, processes);
    stations.ports.retire(of_ports, ports);
}
