//! Freeing a slot.

ghost use Rattle.std.specs.Prelude.{Ok};
ghost use Rattle.std.specs.FinMap as maps;
ghost use Rattle.access_vectors.specs.Stale.{slot_place};
ghost use Rattle.mode_questions.specs.Operations.{request};
ghost use Rattle.file_calls.specs.SlotCalls.{close_row};
ghost use Rattle.file_store.specs.Stores.{state_of, follows};
ghost use Rattle.file_manager.specs.Serving.{MayServe, ServesSlots};

use crate::replies::both;
use access_vectors::Asker;
use file_calls::FileReply;
use file_store::Files;
use flask_sid::Memory;
use mode_questions::{Doubled, Operation};
use retained_rights::Callback;

/// Frees a slot of the caller.
pub fn close<F: Callback, A: Asker>(
    files: &mut Files<F>,
    operation: &Operation<A>,
    slot: u8,
) -> Result<Doubled<FileReply>, Memory>
    requires { MayServe files.old (request operation.now) }
    ensures { let place = slot_place operation.now.caller.now.client slot in
        ServesSlots (maps.remove (follows files.old) place) result files.old files.new operation.now operation.now (close_row (state_of files.old) place) }
{
    let client = operation.caller.client;
    let Some(_usable) = files.slot_use(client, slot) else {
        return Ok(both(FileReply::BadSlot));
    };
    files.free(client, slot);
    Ok(both(FileReply::Done))
}
