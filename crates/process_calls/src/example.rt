//! A first day of one client and one process, on which the plain manager can be looked up.

ghost use Rattle.std.specs.Prelude.{◌≡◌, IfOk};
ghost use Rattle.process_calls.specs.Example.{AnswersOfDay, one_client_opening};

use crate::opening::ProcessOpening;
use flask_sid::{Memory, Rows, Sid};
use std::alloc::Global;

/// An opening with one client, a first example: on it the plain manager asks each permission of a slot's mode again at each
/// use.
pub fn one_client(alloc: Global) -> Result<ProcessOpening, Memory>
    ensures opening { IfOk result (λ opening. opening ≡ one_client_opening) }
    ensures answers { IfOk result AnswersOfDay }
{
    let mut clients = Rows::new(alloc);
    clients.push(Sid::of(1).unwrap())?;
    Ok(ProcessOpening { clients })
}
