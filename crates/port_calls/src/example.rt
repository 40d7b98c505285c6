//! A first day of two clients and one port, on which the plain manager can be looked up.

ghost use Rattle.std.specs.Prelude.{◌≡◌, IfOk};
ghost use Rattle.port_calls.specs.Example.{AnswersOfDay, one_port_opening};

use crate::opening::{LabelledPort, PortOpening};
use flask_sid::{Memory, Rows, Sid};
use std::alloc::Global;

/// An opening with two clients and one port with a label of its own, a first example: on it the plain manager gives a message
/// that one client sent to the other.
pub fn one_port(alloc: Global) -> Result<PortOpening, Memory>
    ensures opening { IfOk result (λ opening. opening ≡ one_port_opening) }
    ensures answers { IfOk result AnswersOfDay }
{
    let mut clients = Rows::new(alloc);
    clients.push(Sid::of(1).unwrap())?;
    clients.push(Sid::of(2).unwrap())?;
    let mut ports = Rows::new(alloc);
    ports.push(LabelledPort {
        port: 80,
        sid: Sid::of(4).unwrap(),
    })?;
    Ok(PortOpening {
        clients,
        initial: Sid::of(3).unwrap(),
        ports,
    })
}
