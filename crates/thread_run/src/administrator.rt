//! The worker of the administrator.

use access_vectors::Decider;
use admin_walk::run_admin_lines;
use change_protocol::Coordinator;
use flask_sid::Memory;
use managed::Managed;
use run_stops::Stops;
use session_text::RunLine;
use std::alloc::Global;
use std::sync::Wait;
use thread_tasks::Task;

/// Where a test may hold the administrator's worker.
#[derive(Drop)]
pub(crate) struct Holds<'g, G: Stops> {
    pub(crate) stops: &'g G,
}

/// The administrator's place: the managers under their coordinator, its script, and how the run of it ended.
#[derive(Drop)]
pub(crate) struct Office<'d, D: Decider, M: Managed> {
    pub(crate) changes: Coordinator<'d, D, M>,
    pub(crate) lines: Vec<RunLine>,
    pub(crate) ended: Result<(), Memory>,
}

/// The worker runs the administrator's script.
impl<'d, 'g, D: Decider, M: Managed, G: Stops> Task<Office<'d, D, M>> for Holds<'g, G> {
    ghost use Rattle.thread_run.specs.Workers.{MayAdminister, HasAdministered};

    ghost may = { λ holds office. MayAdminister M.seen office };

    ghost did = { λ holds was now. HasAdministered D.decides M.seen M.same was now };

    fn run<R: Wait>(&self, rt: &R, alloc: Global, own: &mut Office<'d, D, M>) {
        own.ended = run_admin_lines(
            rt,
            alloc,
            &mut own.changes,
            own.lines.as_slice(),
            self.stops,
        );
    }
}
