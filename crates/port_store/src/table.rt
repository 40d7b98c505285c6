//! What is bound at each port's number, seen as the map of the bound ports.

ghost use Rattle.std.specs.Prelude.{◌≡◌, ◌<◌, length, OnOk};
ghost use Rattle.std.specs.FinMap as maps;
ghost use Rattle.std.specs.Option.{option_copied};
ghost use Rattle.slot_tables.specs.Slots.{map_of};
ghost use Rattle.port_calls.specs.States.{message_limit};
ghost use Rattle.port_store.specs.Queues.{changed, waiting, with_newest, without_oldest};

use crate::queue::Queue;
use flask_sid::{Memory, Piece};

/// What is bound at a port's number, or `None` exactly where nothing is.
pub fn bound_at(table: &[Option<Queue>], port: u32) -> Option<&Queue>
    ensures { option_copied result ≡ maps.get (map_of table.now) port }
{
    table.get(port as usize)?.as_ref()
}

/// Makes room for a port's number. What is bound stays so, also after `Memory`.
pub fn make_room(table: &mut Vec<Option<Queue>>, port: u32) -> Result<(), Memory>
    ensures map { map_of table.new.items ≡ map_of table.old.items }
    ensures room { OnOk result (port < length table.new.items) }
{
    while table.len() <= port as usize {
        table.push(None)?;
    }
    Ok(())
}

/// Binds a port for whose number there is room.
pub fn put(table: &mut Vec<Option<Queue>>, port: u32, queue: Queue)
    requires { port < length table.old.items }
    ensures { map_of table.new.items ≡ maps.insert (map_of table.old.items) port queue }
{
    table[port as usize] = Some(queue);
}

/// Takes out what is bound at a port's number.
pub fn take(table: &mut Vec<Option<Queue>>, port: u32)
    ensures { map_of table.new.items ≡ maps.remove (map_of table.old.items) port }
{
    if (port as usize) < table.len() {
        table[port as usize] = None;
    }
}

/// Adds a message as the newest at a bound port where there is room.
pub fn push(table: &mut Vec<Option<Queue>>, port: u32, message: Piece)
    requires { waiting (maps.get (map_of table.old.items) port) < message_limit }
    ensures { map_of table.new.items ≡ changed (map_of table.old.items) port (λ bound. with_newest bound message) }
{
    let at = port as usize;
    if at >= table.len() {
        return;
    }
    if let Some(queue) = &mut table[at] {
        queue.push(message);
    }
}

/// Drops the oldest message at a bound port, if one waits.
pub fn pop(table: &mut Vec<Option<Queue>>, port: u32)
    ensures { map_of table.new.items ≡ changed (map_of table.old.items) port without_oldest }
{
    let at = port as usize;
    if at >= table.len() {
        return;
    }
    if let Some(queue) = &mut table[at] {
        queue.pop();
    }
}
