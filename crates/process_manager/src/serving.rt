//! Serving a call by the row of its kind.

ghost use Rattle.mode_questions.specs.Operations.{request};
ghost use Rattle.process_calls.specs.PlainManager.{IsFormed};
ghost use Rattle.process_store.specs.Stores.{state_of};
ghost use Rattle.process_manager.specs.Serving.{MayServe, ServesCall};

use crate::attaches::{attach, detach};
use crate::ends::{exit, signal};
use crate::execs::exec;
use crate::forks::fork;
use crate::peeks::peek;
use crate::pokes::poke;
use crate::stats::stat;
use crate::waits::wait;
use access_vectors::Asker;
use flask_sid::Memory;
use mode_questions::{Doubled, Operation};
use process_calls::{ProcessCall, ProcessReply};
use process_store::Processes;
use retained_rights::Callback;

/// Serves a call by the row of its kind.
pub fn serve<F: Callback, A: Asker>(
    processes: &mut Processes<F>,
    operation: &mut Operation<A>,
    call: &ProcessCall,
) -> Result<Doubled<ProcessReply>, Memory>
    requires may { MayServe processes.old (request operation.old) }
    requires formed { let r = request operation.old in IsFormed r.decisions (state_of processes.old) r.client call.now }
    ensures { ServesCall call.now result processes.old processes.new operation.old operation.new }
{
    match *call {
        ProcessCall::Fork { pid } => fork(processes, operation, pid),
        ProcessCall::Exec { pid, sid } => exec(processes, operation, pid, sid),
        ProcessCall::Signal { pid, number } => signal(processes, operation, pid, number),
        ProcessCall::Exit { pid, code } => exit(processes, operation, pid, code),
        ProcessCall::Wait { pid } => wait(processes, operation, pid),
        ProcessCall::Attach { slot, pid } => attach(processes, operation, slot, pid),
        ProcessCall::Peek { slot } => peek(processes, operation, slot),
        ProcessCall::Poke { slot, value } => poke(processes, operation, slot, value),
        ProcessCall::Detach { slot } => detach(processes, operation, slot),
        ProcessCall::StatProcess { pid } => stat(processes, operation, pid),
    }
}
