//! Giving what a slot holds to a slot of another client.

ghost use Rattle.std.specs.Prelude.{◌<◌, length};
ghost use Rattle.std.specs.FinMap as maps;
ghost use Rattle.access_vectors.specs.Stale.{slot_place};
ghost use Rattle.mode_questions.specs.Requests.{with_subject};
ghost use Rattle.mode_questions.specs.Operations.{request};
ghost use Rattle.file_calls.specs.SlotCalls.{give_row};
ghost use Rattle.file_calls.specs.States.{sid_of};
ghost use Rattle.file_store.specs.Stores.{state_of, follows};
ghost use Rattle.file_manager.specs.Serving.{MayServe, ServesSlots};

use crate::opens::MODE_PERMS;
use crate::replies::{both, denied};
use access_vectors::Asker;
use file_calls::FileReply;
use file_store::{Files, Filling};
use flask_sid::Memory;
use mode_questions::{Doubled, Operation};
use retained_rights::Callback;

/// Lets a free slot of a client hold what the caller's slot holds.
pub fn give<F: Callback, A: Asker>(
    files: &mut Files<F>,
    operation: &mut Operation<A>,
    slot: u8,
    client: u8,
    target: u8,
) -> Result<Doubled<FileReply>, Memory>
    requires may { MayServe files.old (request operation.old) }
    requires receiver { client < length files.old.opening.clients }
    ensures { let r = request operation.old in let place = slot_place client target in let state = state_of files.old in
        ServesSlots (maps.insert (follows files.old) place r.number) result files.old files.new operation.old operation.new
        (give_row (with_subject r (sid_of state client)) state (slot_place r.client slot) place) }
{
    let Some((usable, _bytes)) = files.held(operation.caller.client, slot) else {
        return Ok(both(FileReply::BadSlot));
    };
    if let Some(_other) = files.slot_use(client, target) {
        return Ok(both(FileReply::SlotUsed));
    }
    let number = operation.caller.number;
    let s = files.sid(client);
    if let Some(perm) = operation.ask_mode(s, usable.t, usable.mode, &MODE_PERMS)? {
        return Ok(denied(perm, number));
    }
    let filling = Filling {
        object: usable.object,
        s,
        t: usable.t,
        mode: usable.mode,
        number,
    };
    files.fill(client, target, filling, operation.asker)?;
    Ok(both(FileReply::Done))
}
