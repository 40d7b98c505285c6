//! Sending a message, through a slot and without one.

ghost use Rattle.std.specs.Prelude.{◌≡◌, true, is_some};
ghost use Rattle.std.specs.FinMap as maps;
ghost use Rattle.access_vectors.specs.Stale.{slot_place};
ghost use Rattle.mode_questions.specs.Operations.{request};
ghost use Rattle.port_calls.specs.Rows.{push_row, send_row, sent, with_bound};
ghost use Rattle.port_store.specs.Stores.{state_of};
ghost use Rattle.port_manager.specs.Serving.{MayServe, Ends, Serves, ServesThrough};

use crate::replies::{both, denied};
use crate::slots::{MODE_PERMS, held, usage_of};
use access_vectors::perms::PORT_SEND;
use access_vectors::{Asker, Class};
use flask_sid::Memory;
use mode_questions::{Doubled, Operation};
use port_calls::PortReply;
use port_store::{MESSAGE_LIMIT, Ports};
use retained_rights::Callback;

/// How many bytes a message may have.
const BYTE_LIMIT: usize = 256;

/// Sends a message to the port of a caller's slot.
pub fn push<F: Callback, A: Asker>(
    ports: &mut Ports<F>,
    operation: &mut Operation<A>,
    slot: u8,
    message: &[u8],
) -> Result<Doubled<PortReply>, Memory>
    requires { MayServe ports.old (request operation.old) }
    ensures { let r = request operation.old in let place = slot_place r.client slot in
        ServesThrough place result ports.old ports.new operation.old operation.new (push_row r (state_of ports.old) place message.now) }
{
    let Some(usable) = held(ports, operation, slot) else {
        return Ok(both(PortReply::BadSlot));
    };
    if !usable.mode.has(PORT_SEND.index()) {
        return Ok(both(PortReply::BadMode));
    }
    if let Some(perm) = operation.ask_whole(usage_of(&usable), Class::Port, &MODE_PERMS)? {
        return Ok(denied(perm, operation.caller.number));
    }
    let delivered = deliver(ports, operation, usable.object, message)?;
    Ok(delivered)
}

/// Sends a message to a port without a slot.
pub fn send<F: Callback, A: Asker>(
    ports: &mut Ports<F>,
    operation: &mut Operation<A>,
    port: u32,
    message: &[u8],
) -> Result<Doubled<PortReply>, Memory>
    requires { MayServe ports.old (request operation.old) }
    ensures { let r = request operation.old in
        Serves result ports.old ports.new operation.old operation.new (send_row r (state_of ports.old) port message.now) }
{
    let Some(_queue) = ports.bound(port) else {
        return Ok(both(PortReply::NoPort));
    };
    if !operation.ask(ports.label(port), PORT_SEND)? {
        return Ok(denied(PORT_SEND, operation.caller.number));
    }
    let delivered = deliver(ports, operation, port, message)?;
    Ok(delivered)
}

/// Adds a message as the newest at a bound port, if it is not too big and there is room.
fn deliver<F: Callback, A: Asker>(
    ports: &mut Ports<F>,
    operation: &Operation<A>,
    port: u32,
    message: &[u8],
) -> Result<Doubled<PortReply>, Memory>
    requires may { MayServe ports.old (request operation.now) }
    requires bound { is_some (maps.get ports.old.ports port) ≡ true }
    ensures { let state = state_of ports.old in Ends (request operation.now) result ports.old ports.new
        (with_bound state (maps.get ports.old.ports port) (λ bound. sent state port bound message.now)) }
{
    let Some(queue) = ports.bound(port) else {
        unreachable!()
    };
    if message.len() > BYTE_LIMIT {
        return Ok(both(PortReply::TooBig));
    }
    if queue.len() >= MESSAGE_LIMIT {
        return Ok(both(PortReply::Full));
    }
    ports.push(operation.caller.alloc, port, message)?;
    Ok(both(PortReply::Done))
}
