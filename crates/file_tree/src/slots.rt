//! Numbered slots that hold nodes, seen as the map of the nodes that they hold.

ghost use Rattle.std.specs.Prelude.{◌≡◌, ◌<◌, ◌≤◌, ◌^◌, [], ◌++◌, None, Some, true, false, length, unwrap_or, IfOk, IfSome, OnOk, OnErr};
ghost use Rattle.std.specs.FinMap as maps;
ghost use Rattle.slot_tables.specs.Slots.{map_of};
ghost use Rattle.file_tree.specs.Bytes.{written};
ghost use Rattle.file_tree.specs.Nodes.{bytes_of, is_directory_node, is_file, with_bytes};

use crate::node::Node;
use flask_sid::{Memory, Piece};

/// The byte that fills a gap.
const FILLER: u8 = 46;

// Takes the node of a number out, if it is there.
pub fn take_node(slots: &mut Vec<Option<Node>>, number: u32) -> Option<Node>
    ensures node { result ≡ maps.get (map_of slots.old.items) number }
    ensures map { map_of slots.new.items ≡ maps.remove (map_of slots.old.items) number }
    ensures len { length slots.new.items ≡ length slots.old.items }
    ensures within { IfSome result (λ node. number < length slots.new.items) }
{
    let at = number as usize;
    if at >= slots.len() {
        return None;
    }
    slots[at].take()
}

// Puts a node into a slot.
pub fn put_node(slots: &mut Vec<Option<Node>>, number: u32, node: Node)
    requires { number < length slots.old.items }
    ensures map { map_of slots.new.items ≡ maps.insert (map_of slots.old.items) number node }
    ensures len { length slots.new.items ≡ length slots.old.items }
{
    slots[number as usize] = Some(node);
}

// Adds a piece at the end of a file's bytes, in place. After `Memory` all is as before.
pub fn extend_node(slots: &mut Vec<Option<Node>>, number: u32, piece: &[u8]) -> Result<(), Memory>
    requires { is_file (maps.get (map_of slots.old.items) number) ≡ true }
    ensures ok { let nodes = map_of slots.old.items in
        OnOk result (map_of slots.new.items ≡ with_bytes nodes number (bytes_of (maps.get nodes number) ++ piece.now)) }
    ensures err { OnErr result (map_of slots.new.items ≡ map_of slots.old.items) }
    ensures len { length slots.new.items ≡ length slots.old.items }
{
    let Some(Node { bytes, .. }) = &mut slots[number as usize] else {
        unreachable!()
    };
    extend_bytes(bytes, piece)
}

// Writes a piece over a file's bytes at an offset, in place; a gap before it is filled. After `Memory` all is as before.
pub fn write_node(
    slots: &mut Vec<Option<Node>>,
    number: u32,
    offset: u32,
    piece: &[u8],
) -> Result<(), Memory>
    requires { is_file (maps.get (map_of slots.old.items) number) ≡ true }
    ensures ok { let nodes = map_of slots.old.items in
        OnOk result (map_of slots.new.items ≡ with_bytes nodes number (written (bytes_of (maps.get nodes number)) offset piece.now)) }
    ensures err { OnErr result (map_of slots.new.items ≡ map_of slots.old.items) }
    ensures len { length slots.new.items ≡ length slots.old.items }
{
    let Some(Node { bytes, .. }) = &mut slots[number as usize] else {
        unreachable!()
    };
    write_bytes(bytes, offset as usize, piece)
}

// Adds a piece at the end of a file's bytes. After `Memory` they are as before.
fn extend_bytes(bytes: &mut Option<Piece>, piece: &[u8]) -> Result<(), Memory>
    requires { is_directory_node bytes.old ≡ false }
    ensures ok { OnOk result (bytes.new ≡ Some (unwrap_or bytes.old [] ++ piece.now)) }
    ensures err { OnErr result (bytes.new ≡ bytes.old) }
{
    let Some(bytes) = bytes else { unreachable!() };
    bytes.extend(piece)
}

// Writes a piece over a file's bytes at an offset; a gap before it is filled. After `Memory` they are as before.
fn write_bytes(bytes: &mut Option<Piece>, offset: usize, piece: &[u8]) -> Result<(), Memory>
    requires { is_directory_node bytes.old ≡ false }
    ensures ok { OnOk result (bytes.new ≡ Some (written (unwrap_or bytes.old []) offset piece.now)) }
    ensures err { OnErr result (bytes.new ≡ bytes.old) }
{
    let Some(bytes) = bytes else { unreachable!() };
    bytes.write(offset, piece, FILLER)
}

// A slot that holds no node. The nodes are as before.
pub fn free_slot(slots: &mut Vec<Option<Node>>, spare: &mut Vec<u32>) -> Result<u32, Memory>
    requires { length slots.old.items ≤ 2 ^ 32 }
    ensures map { map_of slots.new.items ≡ map_of slots.old.items }
    ensures unused { IfOk result (λ number. maps.get (map_of slots.old.items) number ≡ None) }
    ensures within { IfOk result (λ number. number < length slots.new.items) }
    ensures small { length slots.new.items ≤ 2 ^ 32 }
{
    if let Some(number) = spare.pop() {
        if (number as usize) < slots.len() && slots[number as usize].is_none() {
            return Ok(number);
        }
    }
    let number = slots.len();
    if number > u32::MAX as usize {
        return Err(Memory);
    }
    slots.push(None)?;
    Ok(number as u32)
}
