//! The stations of a session, with their administrators.

use access_vectors::Decider;
use client_script::{Seats, Stations};
use epoch_gate::Admin;
use file_manager::FileCore;
use managed_run::CoreDocket;
use port_manager::PortCore;
use process_manager::ProcessCore;
use retained_rights::{AllBits, EachBits};

/// How many seats, entries of a seat and policy numbers a station may have.
#[derive(Clone, Copy, Debug)]
pub struct Limits {
    /// 1 to 64.
    pub seats: u8,
    /// Of each seat, 1 to 2^29.
    pub quota: u32,
    /// The greatest policy number, 1 to 1,048,575.
    pub most: u32,
}

/// The stations of a session's three managers.
pub type ThreeStations<'d, D> = Stations<'d, D, EachBits, AllBits, AllBits>;

/// A client's seats at them.
pub type ClientSeats<'d, D> = Seats<'d, D, EachBits, AllBits, AllBits>;

/// The administrators of the three stations.
#[derive(Drop)]
pub struct Admins<'d, D: Decider> {
    pub files: Admin<CoreDocket<'d, FileCore<EachBits>, D>, D>,
    pub processes: Admin<CoreDocket<'d, ProcessCore<AllBits>, D>, D>,
    pub ports: Admin<CoreDocket<'d, PortCore<AllBits>, D>, D>,
}

/// The three stations, and their administrators.
#[derive(Drop)]
pub struct Started<'d, D: Decider> {
    pub stations: ThreeStations<'d, D>,
    pub admins: Admins<'d, D>,
}
