//! Another label for a child, by the program that it is to run.

ghost use Rattle.std.specs.Prelude.{◌≡◌, IsTrue};
ghost use Rattle.mode_questions.specs.Operations.{request};
ghost use Rattle.process_calls.specs.PlainManager.{follows_moved};
ghost use Rattle.process_calls.specs.Rows;
ghost use Rattle.process_store.specs.Stores.{state_of, follows};
ghost use Rattle.process_manager.specs.Serving.{MayServe, ServesSlots};

use crate::replies::{both, denied};
use access_vectors::perms::PROCESS_TRANSITION;
use access_vectors::{Asker, Class};
use flask_sid::{Memory, Sid};
use mode_questions::{Doubled, Operation};
use process_calls::{Process, ProcessReply};
use process_store::Processes;
use retained_rights::Callback;

/// Gives a child of the caller the label that the policy has for a program with this one.
pub fn exec<F: Callback, A: Asker>(
    processes: &mut Processes<F>,
    operation: &mut Operation<A>,
    pid: u32,
    argument: Sid,
) -> Result<Doubled<ProcessReply>, Memory>
    requires may { MayServe processes.old (request operation.old) }
    requires known { IsTrue ((request operation.old).decisions.known argument) }
    ensures { let r = request operation.old in let state = state_of processes.old in
        ServesSlots (follows_moved state pid r.number (follows processes.old)) result processes.old processes.new operation.old operation.new
        (Rows.exec_row r state pid argument) }
{
    let caller = operation.caller;
    let Some(process) = processes.process(pid) else {
        return Ok(both(ProcessReply::NoProcess));
    };
    if process.parent != caller.client {
        return Ok(both(ProcessReply::NotChild));
    }
    if process.ended.is_some() {
        return Ok(both(ProcessReply::Ended));
    }
    let number = caller.number;
    let label = operation.label(process.label, argument, Class::Process);
    if label != process.label && !operation.ask(label, PROCESS_TRANSITION)? {
        return Ok(denied(PROCESS_TRANSITION, number));
    }
    processes.relabel(pid, labelled(process, label), number, operation.asker)?;
    Ok(both(ProcessReply::Done))
}

/// A process with another label.
fn labelled(process: Process, label: Sid) -> Process
    ensures { result ≡ Rows.labelled process label }
{
    Process {
        label,
        parent: process.parent,
        ended: process.ended,
        register: process.register,
    }
}
