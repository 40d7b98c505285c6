//! Waiting for a child.

ghost use Rattle.mode_questions.specs.Operations.{request};
ghost use Rattle.process_calls.specs.PlainManager.{follows_without};
ghost use Rattle.process_calls.specs.Rows;
ghost use Rattle.process_store.specs.Stores.{state_of, follows};
ghost use Rattle.process_manager.specs.Serving.{MayServe, ServesTold};

use crate::replies::{both, denied};
use access_vectors::Asker;
use access_vectors::perms::PROCESS_WAIT;
use flask_sid::Memory;
use mode_questions::{Doubled, Operation};
use process_calls::ProcessReply;
use process_store::Processes;
use retained_rights::Callback;

/// Takes a child of the caller that has ended away, and tells its code.
pub fn wait<F: Callback, A: Asker>(
    processes: &mut Processes<F>,
    operation: &mut Operation<A>,
    pid: u32,
) -> Result<Doubled<ProcessReply>, Memory>
    requires { MayServe processes.old (request operation.old) }
    ensures { let r = request operation.old in let state = state_of processes.old in
        ServesTold (follows_without state pid (follows processes.old)) result processes.old processes.new operation.old operation.new
        (Rows.wait_row r state pid) }
{
    let Some(process) = processes.process(pid) else {
        return Ok(both(ProcessReply::NoProcess));
    };
    if process.parent != operation.caller.client {
        return Ok(both(ProcessReply::NotChild));
    }
    if !operation.ask(process.label, PROCESS_WAIT)? {
        return Ok(denied(PROCESS_WAIT, operation.caller.number));
    }
    let Some(code) = process.ended else {
        return Ok(both(ProcessReply::Running));
    };
    processes.remove(pid);
    Ok(both(ProcessReply::Num(code)))
}
