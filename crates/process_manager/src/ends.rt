//! Signals, and the end of a process.

ghost use Rattle.std.specs.Prelude.{◌≡◌};
ghost use Rattle.mode_questions.specs.Operations.{request};
ghost use Rattle.process_calls.specs.Rows;
ghost use Rattle.process_store.specs.Stores.{state_of};
ghost use Rattle.process_manager.specs.Serving.{MayServe, Serves};

use crate::replies::{both, denied};
use access_vectors::Asker;
use access_vectors::perms::{PROCESS_EXIT, PROCESS_SIGNAL};
use flask_sid::Memory;
use mode_questions::{Doubled, Operation};
use process_calls::{Process, ProcessReply};
use process_store::Processes;
use retained_rights::Callback;

/// The signal that ends a process, and the code with which it does.
const KILL_SIGNAL: u32 = 9;

const KILL_CODE: u32 = 137;

/// Sends a signal to a process.
pub fn signal<F: Callback, A: Asker>(
    processes: &mut Processes<F>,
    operation: &mut Operation<A>,
    pid: u32,
    signal: u32,
) -> Result<Doubled<ProcessReply>, Memory>
    requires { MayServe processes.old (request operation.old) }
    ensures { let r = request operation.old in
        Serves result processes.old processes.new operation.old operation.new (Rows.signal_row r (state_of processes.old) pid signal) }
{
    let Some(process) = processes.process(pid) else {
        return Ok(both(ProcessReply::NoProcess));
    };
    if process.ended.is_some() {
        return Ok(both(ProcessReply::Ended));
    }
    if !operation.ask(process.label, PROCESS_SIGNAL)? {
        return Ok(denied(PROCESS_SIGNAL, operation.caller.number));
    }
    processes.replace(pid, signalled(process, signal));
    Ok(both(ProcessReply::Done))
}

/// Ends a child of the caller with a code.
pub fn exit<F: Callback, A: Asker>(
    processes: &mut Processes<F>,
    operation: &mut Operation<A>,
    pid: u32,
    code: u32,
) -> Result<Doubled<ProcessReply>, Memory>
    requires { MayServe processes.old (request operation.old) }
    ensures { let r = request operation.old in
        Serves result processes.old processes.new operation.old operation.new (Rows.exit_row r (state_of processes.old) pid code) }
{
    let Some(process) = processes.process(pid) else {
        return Ok(both(ProcessReply::NoProcess));
    };
    if process.parent != operation.caller.client {
        return Ok(both(ProcessReply::NotChild));
    }
    if process.ended.is_some() {
        return Ok(both(ProcessReply::Ended));
    }
    if !operation.ask(process.label, PROCESS_EXIT)? {
        return Ok(denied(PROCESS_EXIT, operation.caller.number));
    }
    processes.replace(pid, ended_with(process, code));
    Ok(both(ProcessReply::Done))
}

/// A process that got a signal.
fn signalled(process: Process, signal: u32) -> Process
    ensures process { result ≡ Rows.signalled process signal }
    ensures label { result.label ≡ process.label }
{
    if signal == KILL_SIGNAL {
        return ended_with(process, KILL_CODE);
    }
    Process {
        label: process.label,
        parent: process.parent,
        ended: process.ended,
        register: signal,
    }
}

/// A process that has ended with a code.
fn ended_with(process: Process, code: u32) -> Process
    ensures { result ≡ Rows.ended_with process code }
{
    Process {
        label: process.label,
        parent: process.parent,
        ended: Some(code),
        register: process.register,
    }
}
