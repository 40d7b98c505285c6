//! Serving a call by the row of its kind.

ghost use Rattle.mode_questions.specs.Operations.{request};
ghost use Rattle.port_calls.specs.PlainManager.{IsFormed};
ghost use Rattle.port_store.specs.Stores.{state_of};
ghost use Rattle.port_manager.specs.Serving.{MayServe, ServesCall};

use crate::binds::{bind, connect};
use crate::receives::recv;
use crate::sends::{push, send};
use crate::stats::stat;
use crate::unbinds::unbind;
use access_vectors::Asker;
use flask_sid::Memory;
use mode_questions::{Doubled, Operation};
use port_calls::{PortCall, PortReply};
use port_store::Ports;
use retained_rights::Callback;

/// Serves a call by the row of its kind.
pub fn serve<F: Callback, A: Asker>(
    ports: &mut Ports<F>,
    operation: &mut Operation<A>,
    call: &PortCall,
) -> Result<Doubled<PortReply>, Memory>
    requires may { MayServe ports.old (request operation.old) }
    requires formed { let r = request operation.old in IsFormed r.decisions (state_of ports.old) r.client call.now }
    ensures { ServesCall call.now result ports.old ports.new operation.old operation.new }
{
    match call {
        PortCall::Bind { slot, port, mode } => bind(ports, operation, *slot, *port, *mode),
        PortCall::Recv { slot } => recv(ports, operation, *slot),
        PortCall::Connect { slot, port, mode } => connect(ports, operation, *slot, *port, *mode),
        PortCall::Push { slot, piece } => push(ports, operation, *slot, piece.as_bytes()),
        PortCall::Send { port, piece } => send(ports, operation, *port, piece.as_bytes()),
        PortCall::Unbind { slot } => unbind(ports, operation, *slot),
        PortCall::StatPort { port } => stat(ports, operation, *port),
    }
}
