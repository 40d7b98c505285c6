//! What nodes hold: labels and bytes, and how they are written.

ghost use Rattle.std.specs.Prelude.{◌≡◌, ◌++◌, true, OnOk, OnErr};
ghost use Rattle.std.specs.FinMap as maps;
ghost use Rattle.file_tree.specs.Bytes.{written};
ghost use Rattle.file_tree.specs.Nodes.{bytes_of, is_file, relabelled, with_bytes};
ghost use Rattle.file_tree.specs.PlainTree.{IsWellMade, plain, plain_relabelled, plain_with_bytes};

use crate::node::Node;
use crate::slots::{extend_node, put_node, take_node, write_node};
use crate::tree::Tree;
use flask_sid::{Memory, Sid};
use std::alloc::Global;

/// What nodes hold.
impl Tree {
    /// Gives a node another label. Nothing happens where there is none of that number.
    pub fn set_label(&mut self, number: u32, label: Sid)
        ensures nodes { self.new ≡ relabelled self.old number label }
        ensures plain { plain self.new ≡ plain_relabelled (plain self.old) label (maps.get self.old number) }
        ensures made { IsWellMade self.new }
    {
        let Some(node) = take_node(&mut self.slots, number) else {
            return;
        };
        let Node {
            parent,
            path,
            label: _,
            bytes,
        } = node;
        put_node(
            &mut self.slots,
            number,
            Node {
                parent,
                path,
                label,
                bytes,
            },
        );
    }

    /// Writes a piece into a file at an offset; a gap before it is filled. After `Memory` all is as before.
    pub fn write(
        &mut self,
        _alloc: Global,
        number: u32,
        offset: u32,
        piece: &[u8],
    ) -> Result<(), Memory>
        requires { is_file (maps.get self.old number) ≡ true }
        ensures ok { OnOk result (self.new ≡ with_bytes self.old number (written (bytes_of (maps.get self.old number)) offset piece.now)) }
        ensures plain { let was = maps.get self.old number in
            OnOk result (plain self.new ≡ plain_with_bytes (plain self.old) (written (bytes_of was) offset piece.now) was) }
        ensures made { OnOk result (IsWellMade self.new) }
        ensures err { OnErr result (self.new ≡ self.old) }
    {
        write_node(&mut self.slots, number, offset, piece)
    }

    /// Adds a piece at the end of a file. After `Memory` all is as before.
    pub fn append(&mut self, _alloc: Global, number: u32, piece: &[u8]) -> Result<(), Memory>
        requires { is_file (maps.get self.old number) ≡ true }
        ensures ok { OnOk result (self.new ≡ with_bytes self.old number (bytes_of (maps.get self.old number) ++ piece.now)) }
        ensures plain { let was = maps.get self.old number in
            OnOk result (plain self.new ≡ plain_with_bytes (plain self.old) (bytes_of was ++ piece.now) was) }
        ensures made { OnOk result (IsWellMade self.new) }
        ensures err { OnErr result (self.new ≡ self.old) }
    {
        extend_node(&mut self.slots, number, piece)
    }

    /// The bytes of a node; none where there is none, or a directory.
    pub fn bytes(&self, number: u32) -> &[u8]
        ensures { result.now ≡ bytes_of (maps.get self.now number) }
    {
        let Some(node) = self.node(number) else {
            return &[];
        };
        match &node.bytes {
            Some(bytes) => bytes.as_bytes(),
            None => &[],
        }
    }
}
