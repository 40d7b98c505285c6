//! Receiving a message through a slot.

ghost use Rattle.std.specs.Prelude.{◌≡◌, true, is_some};
ghost use Rattle.std.specs.FinMap as maps;
ghost use Rattle.access_vectors.specs.Stale.{slot_place};
ghost use Rattle.mode_questions.specs.Operations.{request};
ghost use Rattle.port_calls.specs.Rows.{received, recv_row, with_bound};
ghost use Rattle.port_store.specs.Stores.{state_of};
ghost use Rattle.port_manager.specs.Serving.{MayServe, Ends, ServesThrough};

use crate::replies::{both, bytes, denied};
use crate::slots::{MODE_PERMS, held, usage_of};
use access_vectors::perms::PORT_RECV;
use access_vectors::{Asker, Class};
use flask_sid::Memory;
use mode_questions::{Doubled, Operation};
use port_calls::PortReply;
use port_store::Ports;
use retained_rights::Callback;

/// Takes the oldest message that waits at the port of a caller's slot.
pub fn recv<F: Callback, A: Asker>(
    ports: &mut Ports<F>,
    operation: &mut Operation<A>,
    slot: u8,
) -> Result<Doubled<PortReply>, Memory>
    requires { MayServe ports.old (request operation.old) }
    ensures { let r = request operation.old in let place = slot_place r.client slot in
        ServesThrough place result ports.old ports.new operation.old operation.new (recv_row r (state_of ports.old) place) }
{
    let Some(usable) = held(ports, operation, slot) else {
        return Ok(both(PortReply::BadSlot));
    };
    if !usable.mode.has(PORT_RECV.index()) {
        return Ok(both(PortReply::BadMode));
    }
    if let Some(perm) = operation.ask_whole(usage_of(&usable), Class::Port, &MODE_PERMS)? {
        return Ok(denied(perm, operation.caller.number));
    }
    let received = receive(ports, operation, usable.object)?;
    Ok(received)
}

/// Takes the oldest message that waits at a bound port.
fn receive<F: Callback, A: Asker>(
    ports: &mut Ports<F>,
    operation: &Operation<A>,
    port: u32,
) -> Result<Doubled<PortReply>, Memory>
    requires may { MayServe ports.old (request operation.now) }
    requires bound { is_some (maps.get ports.old.ports port) ≡ true }
    ensures { let state = state_of ports.old in Ends (request operation.now) result ports.old ports.new
        (with_bound state (maps.get ports.old.ports port) (λ bound. received state port bound bound.messages)) }
{
    let Some(queue) = ports.bound(port) else {
        unreachable!()
    };
    let Some(message) = queue.oldest() else {
        return Ok(both(PortReply::Empty));
    };
    let reply = bytes(operation.caller.alloc, message)?;
    ports.take_oldest(port);
    Ok(reply)
}
