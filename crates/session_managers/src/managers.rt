//! The three managers of a session, and the counts of its summary.

ghost use Rattle.std.specs.Prelude.{◌≡◌, IfOk, true};
ghost use Rattle.session_managers.specs.SessionStates;
ghost use Rattle.session_managers.specs.SessionViews.{AreOpenings, none_told, no_events};

use crate::one_manager::OneManager;
use crate::opening::Openings;
use access_vectors::Decider;
use change_protocol::Coordinator;
use flask_sid::Memory;
use managed::Plain;
use retained_rights::{AllBits, EachBits};
use security_server::Server;
use std::alloc::Global;
use std::marker::Model;

/// The last policy number that may be made.
const MOST: u32 = 1_048_575;

/// How many managers a session has.
pub(crate) const MANAGERS: u8 = 3;

/// The managers of a session on one thread under the coordinator of their changes, and the counts of the summary. Contracts see
/// where the session stands by the definition of what is printed, what decides, what the newest entries tell of calls, the histories as
/// the administrator sees them, and whether each manager has the notice of the number that is proposed.
#[derive(Drop)]
pub struct SessionManagers<'d, D: Decider> {
    pub(crate) changes: Coordinator<'d, D, OneManager<'d, D>>,
    pub(crate) calls: u64,
    pub(crate) denied: u64,
    pub(crate) completed: u64,
}

impl<'d, D: Decider> Model for SessionManagers<'d, D> {
    ghost use Rattle.std.specs.Prelude.{◌≤◌};
    ghost use Rattle.session_managers.specs.SessionViews.{Standing, standing_code};
    ghost use Rattle.session_managers.specs.Standings.{IsSession, standing_of};

    ghost Value = { Standing D };

    ghost coded = { standing_code D.code };

    ghost view = { λ managed. standing_of D.decides managed.changes managed.calls managed.denied managed.completed };

    ghost invariant = { λ managed. IsSession managed.changes × (managed.denied ≤ managed.calls) };
}

impl<'d, D: Decider> SessionManagers<'d, D> {
    /// The managers of a session before its first line.
    pub fn new(
        alloc: Global,
        decider: &'d D,
        openings: Openings,
    ) -> Result<SessionManagers<'d, D>, Memory>
        requires { AreOpenings (D.decides decider.now) openings }
        ensures { IfOk result (λ managed. managed ≡ record {
          state = SessionStates.opening_state openings;
          decider = decider.now;
          told = none_told;
          events = no_events;
          whole = true;
        }) }
    {
        let Openings {
            files,
            processes,
            ports,
        } = openings;
        let files = file_manager::new(alloc, files, EachBits)?;
        let processes = process_manager::new(alloc, processes, AllBits);
        let ports = port_manager::new(alloc, ports, AllBits);
        let managers = vec![in alloc;
            OneManager::File(Plain::new(alloc, files, 0, decider, MOST)),
            OneManager::Process(Plain::new(alloc, processes, 1, decider, MOST)),
            OneManager::Port(Plain::new(alloc, ports, 2, decider, MOST)),
        ]?;
        let server = Server::new(decider, MANAGERS, MOST);
        Ok(SessionManagers {
            changes: Coordinator::new(server, managers, 0),
            calls: 0,
            denied: 0,
            completed: 0,
        })
    }

    /// The counts of the summary: calls, calls denied, changes complete.
    pub fn counts(&self) -> (u64, u64, u64)
        ensures calls { result.0 ≡ self.now.state.calls }
        ensures denied { result.1 ≡ self.now.state.denied }
        ensures changes { result.2 ≡ self.now.state.changes }
    {
        (self.calls, self.denied, self.completed)
    }
}
