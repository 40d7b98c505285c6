//! The three stations, and a client's seats there.

use access_vectors::Decider;
use epoch_gate::Seat;
use file_manager::FileCore;
use managed_run::{CoreDocket, Station};
use port_manager::PortCore;
use process_manager::ProcessCore;
use retained_rights::Callback;

/// The stations of the three managers. F, P and Q are the callbacks of their rights.
#[derive(Drop)]
pub struct Stations<'d, D: Decider, F: Callback + Drop, P: Callback + Drop, Q: Callback + Drop> {
    pub files: Station<'d, FileCore<F>, D>,
    pub processes: Station<'d, ProcessCore<P>, D>,
    pub ports: Station<'d, PortCore<Q>, D>,
}

/// A client's seat of each station, all of one number.
#[derive(Drop)]
pub struct Seats<'d, D: Decider, F: Callback + Drop, P: Callback + Drop, Q: Callback + Drop> {
    pub files: Seat<CoreDocket<'d, FileCore<F>, D>, D>,
    pub processes: Seat<CoreDocket<'d, ProcessCore<P>, D>, D>,
    pub ports: Seat<CoreDocket<'d, PortCore<Q>, D>, D>,
}
