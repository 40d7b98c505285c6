//! What a run is made of, and what it leaves.

use access_vectors::Decider;
use audit_log::AuditLog;
use retained_rights::{AllBits, EachBits};
use run_histories::Closed;
use session_text::RunLine;
use station_start::{Admins, ClientSeats, ThreeStations};

/// What the administrator's worker needs besides the stations: their decider, the last policy number that may be made, their
/// administrators, and its script.
#[derive(Drop)]
pub struct Staff<'d, D: Decider> {
    pub decider: &'d D,
    pub most: u32,
    pub admins: Admins<'d, D>,
    pub script: Vec<RunLine>,
}

/// A session that is ready to be run: its stations, the administrators' part, and by the number of the client its seats and its
/// script.
#[derive(Drop)]
pub struct Prepared<'d, D: Decider> {
    pub stations: ThreeStations<'d, D>,
    pub staff: Staff<'d, D>,
    pub seats: Vec<ClientSeats<'d, D>>,
    pub scripts: Vec<Vec<RunLine>>,
}

/// What a run leaves: the keepers with their histories, and the audit lines of its clients.
#[derive(Drop)]
pub struct Ran<'d, D: Decider> {
    pub closed: Closed<'d, D, EachBits, AllBits, AllBits>,
    pub log: AuditLog,
}
