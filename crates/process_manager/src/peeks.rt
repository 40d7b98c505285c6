//! Looking at the register of a slot's process.

ghost use Rattle.access_vectors.specs.Stale.{slot_place};
ghost use Rattle.mode_questions.specs.Operations.{request};
ghost use Rattle.process_calls.specs.Rows;
ghost use Rattle.process_store.specs.Stores.{state_of};
ghost use Rattle.process_manager.specs.Serving.{MayServe, SaysThrough};

use crate::attaches::ATTACH_PERMS;
use crate::replies::{both, denied};
use crate::slots::{attached, usage_of};
use access_vectors::{Asker, Class};
use flask_sid::Memory;
use mode_questions::{Doubled, Operation};
use process_calls::ProcessReply;
use process_store::Processes;
use retained_rights::Callback;

/// Reads the register of the process that a caller's slot is attached to.
pub fn peek<F: Callback, A: Asker>(
    processes: &Processes<F>,
    operation: &mut Operation<A>,
    slot: u8,
) -> Result<Doubled<ProcessReply>, Memory>
    requires { MayServe processes.now (request operation.old) }
    ensures { let r = request operation.old in let place = slot_place r.client slot in
        SaysThrough place result processes.now operation.old operation.new (Rows.peek_row r (state_of processes.now) place) }
{
    let Some((usable, process)) = attached(processes, operation, slot) else {
        return Ok(both(ProcessReply::BadSlot));
    };
    if let Some(perm) = operation.ask_whole(usage_of(&usable), Class::Process, &ATTACH_PERMS)? {
        return Ok(denied(perm, operation.caller.number));
    }
    if process.ended.is_some() {
        return Ok(both(ProcessReply::Ended));
    }
    Ok(both(ProcessReply::Num(process.register)))
}
