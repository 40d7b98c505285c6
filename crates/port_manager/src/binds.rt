//! Binding a port through a free slot, and connecting one to a port that is bound.

ghost use Rattle.std.specs.Prelude.{◌≡◌, IsTrue};
ghost use Rattle.std.specs.FinMap as maps;
ghost use Rattle.access_vectors.specs.Stale.{slot_place};
ghost use Rattle.mode_questions.specs.Operations.{request};
ghost use Rattle.port_calls.specs.Rows.{bind_row, connect_row};
ghost use Rattle.port_calls.specs.States.{label_of};
ghost use Rattle.port_store.specs.Stores.{IsMode, state_of, follows};
ghost use Rattle.port_manager.specs.Serving.{MayServe, ServesSlots};

use crate::replies::{both, denied};
use crate::slots::MODE_PERMS;
use access_vectors::{Asker, Vector};
use flask_sid::Memory;
use mode_questions::{Doubled, Operation};
use port_calls::PortReply;
use port_store::{Filling, Ports};
use retained_rights::Callback;

/// Binds a port to the caller through a free slot of it.
pub fn bind<F: Callback, A: Asker>(
    ports: &mut Ports<F>,
    operation: &mut Operation<A>,
    slot: u8,
    port: u32,
    mode: Vector,
) -> Result<Doubled<PortReply>, Memory>
    requires may { MayServe ports.old (request operation.old) }
    requires mode { IsMode mode }
    ensures { let r = request operation.old in let place = slot_place r.client slot in
        ServesSlots (maps.insert (follows ports.old) place r.number) result ports.old ports.new operation.old operation.new
        (bind_row r (state_of ports.old) place port mode) }
{
    let caller = operation.caller;
    if let Some(_usable) = ports.slot_use(caller.client, slot) {
        return Ok(both(PortReply::SlotUsed));
    }
    if let Some(_queue) = ports.bound(port) {
        return Ok(both(PortReply::Taken));
    }
    let filling = filling(ports, operation, port, mode);
    if let Some(perm) = operation.ask_mode(filling.s, filling.t, mode, &MODE_PERMS)? {
        return Ok(denied(perm, caller.number));
    }
    ports.bind(caller.alloc, caller.client, slot, filling, operation.asker)?;
    Ok(both(PortReply::Done))
}

/// Connects a free slot of the caller to a bound port.
pub fn connect<F: Callback, A: Asker>(
    ports: &mut Ports<F>,
    operation: &mut Operation<A>,
    slot: u8,
    port: u32,
    mode: Vector,
) -> Result<Doubled<PortReply>, Memory>
    requires may { MayServe ports.old (request operation.old) }
    requires mode { IsMode mode }
    ensures { let r = request operation.old in let place = slot_place r.client slot in
        ServesSlots (maps.insert (follows ports.old) place r.number) result ports.old ports.new operation.old operation.new
        (connect_row r (state_of ports.old) place port mode) }
{
    let caller = operation.caller;
    if let Some(_usable) = ports.slot_use(caller.client, slot) {
        return Ok(both(PortReply::SlotUsed));
    }
    let Some(_queue) = ports.bound(port) else {
        return Ok(both(PortReply::NoPort));
    };
    let filling = filling(ports, operation, port, mode);
    if let Some(perm) = operation.ask_mode(filling.s, filling.t, mode, &MODE_PERMS)? {
        return Ok(denied(perm, caller.number));
    }
    ports.connect(caller.client, slot, filling, operation.asker)?;
    Ok(both(PortReply::Done))
}

/// What a slot of the caller is filled with for a port.
fn filling<F: Callback, A: Asker>(
    ports: &Ports<F>,
    operation: &Operation<A>,
    port: u32,
    mode: Vector,
) -> Filling
    requires { MayServe ports.now (request operation.now) }
    ensures filling { let r = request operation.now in
        result ≡ record { port = port; s = r.subject; t = label_of ports.now.opening port; mode = mode; number = r.number } }
    ensures known { IsTrue ((request operation.now).decisions.known result.t) }
{
    Filling {
        port,
        s: operation.caller.subject,
        t: ports.label(port),
        mode,
        number: operation.caller.number,
    }
}
