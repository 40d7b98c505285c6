//! What the slots of a caller hold.

ghost use Rattle.std.specs.Prelude.{◌≡◌, MatchOption};
ghost use Rattle.mode_questions.specs.Operations.{request};
ghost use Rattle.port_store.specs.Uses.{IsFree};
ghost use Rattle.port_manager.specs.Serving.{MayServe, IsHeld};

use access_vectors::perms::{PORT_CONNECT, PORT_NAME_BIND, PORT_RECV, PORT_SEND};
use access_vectors::{Asker, Perm};
use mode_questions::{Operation, SlotUse};
use port_store::Ports;
use retained_rights::{Callback, Usable};

/// The permissions of a port's mode, in the order in which they are asked.
pub const MODE_PERMS: [Perm; 4] = [PORT_NAME_BIND, PORT_RECV, PORT_SEND, PORT_CONNECT];

/// What a slot of the caller holds: its use of a bound port.
pub fn held<F: Callback, A: Asker>(
    ports: &Ports<F>,
    operation: &Operation<A>,
    slot: u8,
) -> Option<Usable>
    requires { MayServe ports.now (request operation.now) }
    ensures { let r = request operation.now in MatchOption result (IsFree ports.now r.client slot)
        (λ usable. IsHeld r ports.now slot usable) }
{
    let usable = ports.slot_use(operation.caller.client, slot)?;
    let Some(_queue) = ports.bound(usable.object) else {
        unreachable!()
    };
    Some(usable)
}

/// What a used slot gives its client.
pub fn usage_of(usable: &Usable) -> SlotUse
    ensures { result ≡ record { t = usable.now.t; mode = usable.now.mode; bits = usable.now.bits; number = usable.now.number } }
{
    SlotUse {
        t: usable.t,
        mode: usable.mode,
        bits: usable.bits,
        number: usable.number,
    }
}
