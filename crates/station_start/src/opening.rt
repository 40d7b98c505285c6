//! The stations are opened.

ghost use Rattle.std.specs.Prelude.{◌≡◌, [], None, IfOk};
ghost use Rattle.std.specs.FinMap as maps;
ghost use Rattle.access_vectors.specs.declared.phase.Phase.{Phase};
ghost use Rattle.epoch_gate.specs.Opening.{refusal};
ghost use Rattle.session_managers.specs.SessionViews.{AreOpenings};
ghost use Rattle.station_start.specs.Starts.{IsOpened, HasStarted};

use crate::started::{Admins, Limits, Started};
use access_vectors::Decider;
use client_script::Stations;
use epoch_gate::{Admin, GateFault};
use file_manager::FileCore;
use flask_sid::Memory;
use managed_run::{CoreDocket, Station};
use manager_history::{Core, Keeper};
use port_manager::PortCore;
use process_manager::ProcessCore;
use retained_rights::{AllBits, EachBits};
use session_managers::Openings;
use std::alloc::Global;

/// A station, and its administrator.
#[derive(Drop)]
struct Opened<'d, C: Core + Drop, D: Decider> {
    station: Station<'d, C, D>,
    admin: Admin<CoreDocket<'d, C, D>, D>,
}

/// A station over a core that did nothing yet, with its administrator.
fn open<'d, C: Core + Drop, D: Decider>(
    alloc: Global,
    core: C,
    manager: u8,
    decider: &'d D,
    limits: Limits,
) -> Result<Opened<'d, C, D>, Memory>
    requires fits { C.fits (D.decides decider.now) core }
    requires opening { C.state core ≡ C.opening core }
    requires settled { C.phase core ≡ Phase.Settled 0 0 }
    requires unused { maps.entries (C.follows core) ≡ [] }
    requires limits { refusal limits.seats limits.quota limits.most ≡ None }
    ensures { IfOk result (λ opened. IsOpened decider.now core manager limits opened.station opened.admin) }
{
    let keeper = Keeper::new(alloc, core, manager, decider);
    match Station::new(
        alloc,
        keeper,
        decider,
        limits.seats,
        limits.quota,
        limits.most,
    ) {
        Ok((station, admin)) => Ok(Opened { station, admin }),
        Err(GateFault::Memory) => Err(Memory),
        Err(_) => unreachable!(),
    }
}

/// The three stations together, and their administrators together.
fn gather<'d, D: Decider>(
    files: Opened<'d, FileCore<EachBits>, D>,
    processes: Opened<'d, ProcessCore<AllBits>, D>,
    ports: Opened<'d, PortCore<AllBits>, D>,
) -> Started<'d, D>
    ensures files { (result.stations.files ≡ files.entry.station) × (result.admins.files ≡ files.entry.admin) }
    ensures processes { (result.stations.processes ≡ processes.entry.station) × (result.admins.processes ≡ processes.entry.admin) }
    ensures ports { (result.stations.ports ≡ ports.entry.station) × (result.admins.ports ≡ ports.entry.admin) }
{
    Started {
        stations: Stations {
            files: files.station,
            processes: processes.station,
            ports: ports.station,
        },
        admins: Admins {
            files: files.admin,
            processes: processes.admin,
            ports: ports.admin,
        },
    }
}

/// Opens the stations of the managers of files, processes and ports, numbered 0, 1 and 2, all with one decider and these limits.
/// No seat was made and no turn had.
pub fn start<'d, D: Decider>(
    alloc: Global,
    decider: &'d D,
    openings: Openings,
    limits: Limits,
) -> Result<Started<'d, D>, Memory>
    requires openings { AreOpenings (D.decides decider.now) openings }
    requires limits { refusal limits.seats limits.quota limits.most ≡ None }
    ensures { IfOk result (HasStarted decider.now openings limits) }
{
    let Openings {
        files,
        processes,
        ports,
    } = openings;
    let files = file_manager::new(alloc, files, EachBits)?;
    let processes = process_manager::new(alloc, processes, AllBits);
    let ports = port_manager::new(alloc, ports, AllBits);
    let files = open(alloc, files, 0, decider, limits)?;
    let processes = open(alloc, processes, 1, decider, limits)?;
    let ports = open(alloc, ports, 2, decider, limits)?;
    Ok(gather(files, processes, ports))
}
