//! The three managers under a coordinator.

ghost use Rattle.std.specs.Prelude.{◌≡◌, ◌<◌, ◌≤◌, ℕ, IfOk};
ghost use Rattle.client_script.specs.declared.stations.Stations.{Stations as Sites};
ghost use Rattle.retained_rights.specs.declared.callbacks.EachBits.{EachBits as Each};
ghost use Rattle.retained_rights.specs.declared.callbacks.AllBits.{AllBits as Whole};
ghost use Rattle.station_start.specs.declared.started.Admins.{Admins as Administrators};
ghost use Rattle.thread_run.specs.Managers.{AreStations, AreBefore, AreThree, AreHeld, managers_of, led_first};

use access_vectors::Decider;
use change_protocol::Coordinator;
use file_manager::FileCore;
use flask_sid::Memory;
use managed_run::Held;
use one_of_three::{OneOfThree, three_of};
use port_manager::PortCore;
use process_manager::ProcessCore;
use retained_rights::{AllBits, EachBits};
use security_server::Server;
use station_start::{Admins, ThreeStations};
use std::alloc::Global;

/// How many managers a session has.
const MANAGERS: u8 = 3;

/// A station of the three with its administrator.
pub(crate) type HeldOne<'s, 'd, D> = OneOfThree<
    Held<'s, 'd, FileCore<EachBits>, D>,
    Held<'s, 'd, ProcessCore<AllBits>, D>,
    Held<'s, 'd, PortCore<AllBits>, D>,
>;

/// The coordinator of the three stations, before the first change.
pub(crate) fn lead<'s, 'd, D: Decider>(
    alloc: Global,
    decider: &'d D,
    most: u32,
    stations: &'s ThreeStations<'d, D>,
    admins: Admins<'d, D>,
) -> Result<Coordinator<'d, D, HeldOne<'s, 'd, D>>, Memory>
    requires first { 0 < most }
    requires last { most ≤ 1048575 }
    requires stations { AreStations decider.now most stations.now }
    requires admins { (seats : ℕ) × AreBefore seats stations.now admins }
    ensures { IfOk result (λ changes. changes ≡ led_first decider.entry.now most stations.entry.now admins.entry) }
{
    let Admins {
        files,
        processes,
        ports,
    } = admins;
    let managers = vec![in alloc;
        OneOfThree::Files(Held::new(&stations.files, files)),
        OneOfThree::Processes(Held::new(&stations.processes, processes)),
        OneOfThree::Ports(Held::new(&stations.ports, ports)),
    ]?;
    let server = Server::new(decider, MANAGERS, most);
    Ok(Coordinator::new(server, managers, 0))
}

/// The administrators of the three stations again.
pub(crate) fn apart<'s, 'd, D: Decider>(
    changes: Coordinator<'d, D, HeldOne<'s, 'd, D>>,
) -> Admins<'d, D>
    requires { AreThree changes.managers }
    ensures { (stations : Sites D Each Whole Whole) (admins : Administrators D) → changes.entry.managers ≡ managers_of stations admins
        → (result ≡ admins) × AreHeld stations admins }
{
    let (_, managers, _) = changes.release();
    let Some((files, processes, ports)) = three_of(managers) else {
        unreachable!()
    };
    Admins {
        files: files.release(),
        processes: processes.release(),
        ports: ports.release(),
    }
}
