//! Label of a port, and how many messages wait there.

ghost use Rattle.mode_questions.specs.Operations.{request};
ghost use Rattle.port_calls.specs.Rows.{stat_row};
ghost use Rattle.port_store.specs.Stores.{state_of};
ghost use Rattle.port_manager.specs.Serving.{MayServe, Says};

use crate::replies::{both, denied};
use access_vectors::Asker;
use access_vectors::perms::PORT_GETATTR;
use flask_sid::Memory;
use mode_questions::{Doubled, Operation};
use port_calls::PortReply;
use port_store::Ports;
use retained_rights::Callback;

/// Tells the label of a bound port, and how many messages wait there.
pub fn stat<F: Callback, A: Asker>(
    ports: &Ports<F>,
    operation: &mut Operation<A>,
    port: u32,
) -> Result<Doubled<PortReply>, Memory>
    requires { MayServe ports.now (request operation.old) }
    ensures { let r = request operation.old in
        Says result ports.now operation.old operation.new (stat_row r (state_of ports.now) port) }
{
    let Some(queue) = ports.bound(port) else {
        return Ok(both(PortReply::NoPort));
    };
    let sid = ports.label(port);
    let number = queue.len() as u32;
    if !operation.ask(sid, PORT_GETATTR)? {
        return Ok(denied(PORT_GETATTR, operation.caller.number));
    }
    Ok(both(PortReply::Stat { sid, number }))
}
