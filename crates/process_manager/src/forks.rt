//! Starting a process.

ghost use Rattle.std.specs.Prelude.{IsTrue};
ghost use Rattle.std.specs.FinMap as maps;
ghost use Rattle.mode_questions.specs.Operations.{request};
ghost use Rattle.process_calls.specs.Rows;
ghost use Rattle.process_store.specs.Stores.{state_of};
ghost use Rattle.process_manager.specs.Serving.{MayServe, Ends, Serves};

use crate::replies::{both, denied};
use access_vectors::perms::{PROCESS_FORK, PROCESS_TRANSITION};
use access_vectors::{Asker, Class};
use flask_sid::{Memory, Sid};
use mode_questions::{Doubled, Operation};
use process_calls::{Process, ProcessReply};
use process_store::Processes;
use retained_rights::Callback;

/// Starts a process as a child of the caller.
pub fn fork<F: Callback, A: Asker>(
    processes: &mut Processes<F>,
    operation: &mut Operation<A>,
    pid: u32,
) -> Result<Doubled<ProcessReply>, Memory>
    requires { MayServe processes.old (request operation.old) }
    ensures { let r = request operation.old in
        Serves result processes.old processes.new operation.old operation.new (Rows.fork_row r (state_of processes.old) pid) }
{
    let caller = operation.caller;
    let s = caller.subject;
    if !operation.ask(s, PROCESS_FORK)? {
        return Ok(denied(PROCESS_FORK, caller.number));
    }
    let label = operation.label(s, s, Class::Process);
    if label != s && !operation.ask(label, PROCESS_TRANSITION)? {
        return Ok(denied(PROCESS_TRANSITION, caller.number));
    }
    let started = start(processes, operation, pid, label)?;
    Ok(started)
}

/// Starts a process with a label, as a child of the caller.
fn start<F: Callback, A: Asker>(
    processes: &mut Processes<F>,
    operation: &Operation<A>,
    pid: u32,
    label: Sid,
) -> Result<Doubled<ProcessReply>, Memory>
    requires may { MayServe processes.old (request operation.now) }
    requires known { IsTrue ((request operation.now).decisions.known label) }
    ensures { let r = request operation.now in Ends r result processes.old processes.new
        (Rows.started_at (state_of processes.old) r.client pid label (maps.get processes.old.processes pid)) }
{
    if processes.process(pid).is_some() {
        return Ok(both(ProcessReply::Exists));
    }
    if !processes.has_room() {
        return Ok(both(ProcessReply::TooMany));
    }
    let process = Process {
        label,
        parent: operation.caller.client,
        ended: None,
        register: 0,
    };
    processes.add(pid, process)?;
    Ok(both(ProcessReply::Done))
}
