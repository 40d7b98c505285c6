//! The runner of a session's lines.

ghost use Rattle.std.specs.Prelude.{◌≡◌, ◌+◌, ◌<◌, ◌≤◌, ◌^◌, false, None, IsTrue, is_err, IfOk, OnOk};
ghost use Rattle.session_managers.specs.SessionStates.{opening_state};
ghost use Rattle.session_managers.specs.SessionViews.{AreOpenings, HasClients, none_told};
ghost use Rattle.session_text.specs.Sessions.{IsRun};
ghost use Rattle.session_runner.specs.Runs;
ghost use Rattle.session_runner.specs.Runners.{IsSameRun};

use crate::answering;
use crate::outcomes::LineAnswer;
use access_vectors::Decider;
use flask_sid::Memory;
use session_managers::{Openings, SessionManagers};
use session_text::Run;
use std::alloc::Global;
use std::marker::Model;
use std::sync::Wait;

/// The managers of a session on one thread, and how many clients it has. Contracts see where the session stands, what decides,
/// what the newest entries tell of calls, the number of clients, and whether memory was wanting. The type keeps that the managers were opened
/// with these clients, of whom there are at most 62, and that each manager has its notice, unless memory was wanting.
#[derive(Drop)]
pub struct Runner<'d, D: Decider> {
    pub(crate) alloc: Global,
    pub(crate) managed: SessionManagers<'d, D>,
    clients: usize,
    pub(crate) stopped: bool,
}

impl<'d, D: Decider> Model for Runner<'d, D> {
    ghost use Rattle.session_runner.specs.Runners.{Running, running_code, IsRunner};

    ghost Value = { Running D };

    ghost coded = { running_code D.code };

    ghost view = { λ runner. record {
      state = runner.managed.state;
      decider = runner.managed.decider;
      told = runner.managed.told;
      clients = runner.clients;
      stopped = runner.stopped;
    } };

    ghost invariant = { λ runner. IsRunner runner.managed runner.clients runner.stopped };
}

impl<'d, D: Decider> Runner<'d, D> {
    /// A runner before the first line.
    pub fn new(
        alloc: Global,
        decider: &'d D,
        openings: Openings,
        clients: usize,
    ) -> Result<Runner<'d, D>, Memory>
        requires openings { AreOpenings (D.decides decider.now) openings }
        requires few { clients ≤ 62 }
        requires clients { HasClients clients (opening_state openings) }
        ensures { IfOk result (λ runner. runner ≡ record {
          state = opening_state openings;
          decider = decider.now;
          told = none_told;
          clients = clients;
          stopped = false;
        }) }
    {
        let managed = SessionManagers::new(alloc, decider, openings)?;
        Ok(Runner {
            alloc,
            managed,
            clients,
            stopped: false,
        })
    }

    /// Does what a line asks that is no client's call.
    pub(crate) fn answer<R: Wait>(&mut self, rt: &R, run: Run) -> Result<LineAnswer, Memory>
        requires going { self.old.stopped ≡ false }
        requires no_call { Runs.caller_of self.old.state run ≡ None }
        requires formed { IsRun (λ sid. IsTrue ((D.decides self.old.decider).known sid)) self.old.clients run }
        requires changes { self.old.state.changes + 1 < 2 ^ 64 }
        ensures answer { IfOk result (λ answer. answer ≡ Runs.answer_on (D.decides self.old.decider) self.old.state run) }
        ensures state { OnOk result (self.new.state ≡ Runs.state_after (D.decides self.old.decider) self.old.state run) }
        ensures same { IsSameRun self.old self.new }
        ensures stopped { self.new.stopped ≡ is_err result }
    {
        let answer = answering::answer::<R, D>(
            rt,
            self.alloc,
            &mut self.managed,
            self.clients,
            run,
        );
        self.stopped = answer.is_err();
        answer
    }

    /// The counts of the summary: calls, calls denied, changes complete.
    pub fn counts(&self) -> (u64, u64, u64)
        ensures calls { result.0 ≡ self.now.state.calls }
        ensures denied { result.1 ≡ self.now.state.denied }
        ensures changes { result.2 ≡ self.now.state.changes }
    {
        self.managed.counts()
    }
}
