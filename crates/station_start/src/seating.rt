//! Clients get their seats.

ghost use Rattle.std.specs.Prelude.{◌≡◌, ◌<◌, ◌≤◌, ◌∷◌, ◌++◌, [], ◌+◌, IfOk, OnErr, vec_len, vec_capacity};
ghost use Rattle.station_start.specs.Seating.{MaySeatAt, HasSeatedAt, MaySeat, HasSeated, MaySeatAll, HasSeatedAll};

use crate::started::{Admins, ClientSeats, ThreeStations};
use access_vectors::Decider;
use client_script::Seats;
use epoch_gate::{Admin, Seat, SeatFault};
use flask_sid::Memory;
use managed_run::{CoreDocket, Station};
use manager_history::Core;
use std::alloc::Global;

/// A new seat of a station that has room for one.
fn seat_at<'d, C: Core + Drop, D: Decider>(
    station: &Station<'d, C, D>,
    admin: &mut Admin<CoreDocket<'d, C, D>, D>,
) -> Seat<CoreDocket<'d, C, D>, D>
    requires { MaySeatAt station.now admin.old }
    ensures { HasSeatedAt station.now admin.old result admin.new }
{
    match station.seat(admin) {
        Ok(seat) => seat,
        Err(SeatFault::Full) => unreachable!(),
    }
}

/// The seats of the next client, one of each station, all of its number.
pub fn seat_client<'d, D: Decider>(
    stations: &ThreeStations<'d, D>,
    admins: &mut Admins<'d, D>,
) -> ClientSeats<'d, D>
    requires { MaySeat stations.now admins.old }
    ensures { HasSeated stations.now admins.old result admins.new }
{
    Seats {
        files: seat_at(&stations.files, &mut admins.files),
        processes: seat_at(&stations.processes, &mut admins.processes),
        ports: seat_at(&stations.ports, &mut admins.ports),
    }
}

/// Adds an item, for which there is room.
fn add<T: Drop>(items: &mut Vec<T>, item: T)
    requires { vec_len items.old < vec_capacity items.old }
    ensures added { items.new.items ≡ items.old.items ++ item ∷ [] }
    ensures len { vec_len items.new ≡ vec_len items.old + 1 }
    ensures room { vec_capacity items.old ≤ vec_capacity items.new }
{
    let _ = items.push(item);
}

/// The seats of so many clients, in the order of their numbers, at stations that have no seat yet. After `Memory` none was made.
pub fn seat_all<'d, D: Decider>(
    alloc: Global,
    stations: &ThreeStations<'d, D>,
    admins: &mut Admins<'d, D>,
    count: u8,
) -> Result<Vec<ClientSeats<'d, D>>, Memory>
    requires { MaySeatAll count stations.now admins.old }
    ensures ok { IfOk result (λ seats. HasSeatedAll count stations.now admins.old seats.items admins.new) }
    ensures err { OnErr result (admins.new ≡ admins.old) }
{
    let mut seats = Vec::with_capacity(alloc, usize::from(count))?;
    'clients: for _client in 0..count {
        add(&mut seats, seat_client(stations, admins));
    }
    Ok(seats)
}
