//! Attaching a slot to a process, and freeing it.

ghost use Rattle.std.specs.FinMap as maps;
ghost use Rattle.access_vectors.specs.Stale.{slot_place};
ghost use Rattle.mode_questions.specs.Operations.{request};
ghost use Rattle.process_calls.specs.Rows;
ghost use Rattle.process_store.specs.Stores.{state_of, follows};
ghost use Rattle.process_manager.specs.Serving.{MayServe, ServesSlots};

use crate::replies::{both, denied};
use access_vectors::perms::{PROCESS_GETATTR, PROCESS_PTRACE};
use access_vectors::{Asker, Perm, Vector};
use flask_sid::Memory;
use mode_questions::{Doubled, Operation};
use process_calls::ProcessReply;
use process_store::{Attachment, Processes};
use retained_rights::Callback;

/// The permissions of the mode of an attached slot, in the order in which they are asked.
pub const ATTACH_PERMS: [Perm; 2] = [PROCESS_PTRACE, PROCESS_GETATTR];

/// The mode, as a vector's bits.
const ATTACH_MODE: u16 = 72;

/// Attaches a free slot of the caller to a process.
pub fn attach<F: Callback, A: Asker>(
    processes: &mut Processes<F>,
    operation: &mut Operation<A>,
    slot: u8,
    pid: u32,
) -> Result<Doubled<ProcessReply>, Memory>
    requires { MayServe processes.old (request operation.old) }
    ensures { let r = request operation.old in let place = slot_place r.client slot in
        ServesSlots (maps.insert (follows processes.old) place r.number) result processes.old processes.new operation.old operation.new
        (Rows.attach_row r (state_of processes.old) place pid) }
{
    let caller = operation.caller;
    if let Some(_usable) = processes.slot_use(caller.client, slot) {
        return Ok(both(ProcessReply::SlotUsed));
    }
    let Some(process) = processes.process(pid) else {
        return Ok(both(ProcessReply::NoProcess));
    };
    if process.ended.is_some() {
        return Ok(both(ProcessReply::Ended));
    }
    let s = caller.subject;
    let t = process.label;
    if let Some(perm) = operation.ask_mode(s, t, Vector::of(ATTACH_MODE), &ATTACH_PERMS)? {
        return Ok(denied(perm, caller.number));
    }
    let number = caller.number;
    let attachment = Attachment { pid, s, t, number };
    processes.attach(caller.client, slot, attachment, operation.asker)?;
    Ok(both(ProcessReply::Done))
}

/// Frees a slot of the caller.
pub fn detach<F: Callback, A: Asker>(
    processes: &mut Processes<F>,
    operation: &Operation<A>,
    slot: u8,
) -> Result<Doubled<ProcessReply>, Memory>
    requires { MayServe processes.old (request operation.now) }
    ensures { let place = slot_place operation.now.caller.now.client slot in
        ServesSlots (maps.remove (follows processes.old) place) result processes.old processes.new operation.now operation.now
        (Rows.detach_row (state_of processes.old) place) }
{
    let client = operation.caller.client;
    let Some(_usable) = processes.slot_use(client, slot) else {
        return Ok(both(ProcessReply::BadSlot));
    };
    processes.free(client, slot);
    Ok(both(ProcessReply::Done))
}
