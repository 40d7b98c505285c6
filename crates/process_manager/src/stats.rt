//! Label and register of a process.

ghost use Rattle.mode_questions.specs.Operations.{request};
ghost use Rattle.process_calls.specs.Rows;
ghost use Rattle.process_store.specs.Stores.{state_of};
ghost use Rattle.process_manager.specs.Serving.{MayServe, Says};

use crate::replies::{both, denied};
use access_vectors::Asker;
use access_vectors::perms::PROCESS_GETATTR;
use flask_sid::Memory;
use mode_questions::{Doubled, Operation};
use process_calls::ProcessReply;
use process_store::Processes;
use retained_rights::Callback;

/// Tells label and register of a process.
pub fn stat<F: Callback, A: Asker>(
    processes: &Processes<F>,
    operation: &mut Operation<A>,
    pid: u32,
) -> Result<Doubled<ProcessReply>, Memory>
    requires { MayServe processes.now (request operation.old) }
    ensures { let r = request operation.old in
        Says result processes.now operation.old operation.new (Rows.stat_row r (state_of processes.now) pid) }
{
    let Some(process) = processes.process(pid) else {
        return Ok(both(ProcessReply::NoProcess));
    };
    if !operation.ask(process.label, PROCESS_GETATTR)? {
        return Ok(denied(PROCESS_GETATTR, operation.caller.number));
    }
    if process.ended.is_some() {
        return Ok(both(ProcessReply::Ended));
    }
    Ok(both(ProcessReply::Stat {
        sid: process.label,
        number: process.register,
    }))
}
