//! Freeing a slot, and with the slot that bound it the port.

ghost use Rattle.std.specs.FinMap as maps;
ghost use Rattle.access_vectors.specs.Stale.{slot_place};
ghost use Rattle.mode_questions.specs.Operations.{request};
ghost use Rattle.port_calls.specs.PlainManager.{follows_unbound};
ghost use Rattle.port_calls.specs.Rows.{unbind_row};
ghost use Rattle.port_store.specs.Stores.{state_of, follows};
ghost use Rattle.port_manager.specs.Serving.{MayServe, ServesSlots};

use crate::replies::both;
use access_vectors::Asker;
use access_vectors::perms::PORT_NAME_BIND;
use flask_sid::Memory;
use mode_questions::{Doubled, Operation};
use port_calls::PortReply;
use port_store::Ports;
use retained_rights::Callback;

/// Frees a slot of the caller, and with the slot that bound it the port.
pub fn unbind<F: Callback, A: Asker>(
    ports: &mut Ports<F>,
    operation: &Operation<A>,
    slot: u8,
) -> Result<Doubled<PortReply>, Memory>
    requires { MayServe ports.old (request operation.now) }
    ensures { let place = slot_place operation.now.caller.now.client slot in let state = state_of ports.old in
        ServesSlots (follows_unbound state place (maps.get state.slots place) (follows ports.old)) result ports.old ports.new
        operation.now operation.now (unbind_row state place) }
{
    let client = operation.caller.client;
    let Some(usable) = ports.slot_use(client, slot) else {
        return Ok(both(PortReply::BadSlot));
    };
    if usable.mode.has(PORT_NAME_BIND.index()) {
        ports.unbind(usable.object);
    } else {
        ports.free(client, slot);
    }
    Ok(both(PortReply::Done))
}
