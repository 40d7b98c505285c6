//! What each line of a session that is no client's call does at the managers.

ghost use Rattle.std.specs.Prelude.{◌≡◌, ◌+◌, ◌<◌, ◌≤◌, ◌^◌, true, None, IsTrue, IfOk, OnOk};
ghost use Rattle.session_managers.specs.SessionViews.{IsSameOpening};
ghost use Rattle.session_text.specs.Sessions.{IsRun};
ghost use Rattle.session_runner.specs.Runs;

use crate::outcomes::LineAnswer;
use access_vectors::Decider;
use change_protocol::NotifyAllFault;
use flask_sid::Memory;
use session_managers::SessionManagers;
use session_text::Run;
use std::alloc::Global;
use std::sync::Wait;

/// Does what a line asks of a session of so many clients, which is no client's call.
pub(crate) fn answer<R: Wait, D: Decider>(
    rt: &R,
    alloc: Global,
    managed: &mut SessionManagers<'_, D>,
    clients: usize,
    run: Run,
) -> Result<LineAnswer, Memory>
    requires no_call { Runs.caller_of managed.old.state run ≡ None }
    requires formed { IsRun (λ sid. IsTrue ((D.decides managed.old.decider).known sid)) clients run }
    requires few { clients ≤ 62 }
    requires whole { managed.old.whole ≡ true }
    requires changes { managed.old.state.changes + 1 < 2 ^ 64 }
    ensures answer { IfOk result (λ answer. answer ≡ Runs.answer_on (D.decides managed.old.decider) managed.old.state run) }
    ensures state { OnOk result (managed.new.state ≡ Runs.state_after (D.decides managed.old.decider) managed.old.state run) }
    ensures opening { IsSameOpening managed.old.state managed.new.state }
    ensures decider { managed.new.decider ≡ managed.old.decider }
    ensures whole { OnOk result (managed.new.whole ≡ true) }
{
    match run {
        Run::Begin { client, manager } => {
            let number = managed.acting(client, manager);
            managed.begin(alloc, client, manager);
            Ok(LineAnswer::Begun {
                client,
                manager,
                number,
            })
        }
        Run::End { client, manager } => {
            let number = managed.acting(client, manager);
            managed.end(alloc, client, manager);
            Ok(LineAnswer::Ended {
                client,
                manager,
                number,
            })
        }
        Run::Notify { ver } => {
            let said = managed.notify(rt, alloc, ver);
            if let Err(NotifyAllFault::Memory { .. }) = &said {
                return Err(Memory);
            }
            Ok(LineAnswer::Notified(said))
        }
        Run::Update { k } => Ok(LineAnswer::Updated(managed.update(rt, k))),
        Run::Ack => Ok(LineAnswer::Acknowledged(managed.acknowledge(rt))),
        Run::Force => Ok(LineAnswer::Acknowledged(managed.force(rt))),
        Run::File { .. } | Run::Process { .. } | Run::Port { .. } => unreachable!(),
    }
}
