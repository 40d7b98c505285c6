//! The worker of a client.

use access_vectors::Decider;
use audit_queue::{AuditQueue, Pen};
use client_acts::{Audit, Worker};
use client_script::run_script;
use flask_sid::Memory;
use run_stops::Stops;
use session_text::RunLine;
use station_start::{ClientSeats, ThreeStations};
use std::alloc::Global;
use std::mem;
use std::sync::Wait;
use thread_tasks::Task;

/// What the workers of clients share: the stations, the queue of their audit lines and which lines there are, and where a test may hold
/// them.
#[derive(Drop)]
pub(crate) struct Hall<'s, 'd, 'g, D: Decider, G: Stops> {
    pub(crate) stations: &'s ThreeStations<'d, D>,
    pub(crate) queue: &'s AuditQueue,
    pub(crate) audit: &'g Audit<'g>,
    pub(crate) stops: &'g G,
}

/// A client's place: its seats, its pen, its script until it is run, and how the run of it ended.
#[derive(Drop)]
pub(crate) struct Slot<'d, D: Decider> {
    pub(crate) seats: ClientSeats<'d, D>,
    pub(crate) pen: Pen,
    pub(crate) lines: Vec<RunLine>,
    pub(crate) ended: Result<(), Memory>,
}

/// A worker runs the script of its client, and posts its audit lines.
impl<'s, 'd, 'g, D: Decider, G: Stops> Task<Slot<'d, D>> for Hall<'s, 'd, 'g, D, G> {
    ghost use Rattle.thread_run.specs.Workers.{MayWork, MayPost, HasWorked, HasPosted};

    ghost may = { λ hall slot. MayWork D.decides hall.stations.now slot × MayPost hall.queue.now slot };

    ghost did = { λ hall was now. HasWorked hall.stations.now was now × HasPosted hall.audit.now was now };

    fn run<R: Wait>(&self, rt: &R, alloc: Global, own: &mut Slot<'d, D>) {
        let worker = Worker {
            rt,
            alloc,
            queue: self.queue,
            audit: self.audit,
            stops: self.stops,
        };
        let lines = mem::replace(&mut own.lines, Vec::new(alloc));
        own.ended = run_script(&worker, self.stations, &mut own.seats, &mut own.pen, lines);
    }
}
