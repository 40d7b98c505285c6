//! A node of the tree.

use crate::step::Step;
use flask_sid::{Piece, Rows, Sid};

/// A node of the tree: a file, or a directory where there are no bytes. The root's path is empty, and its parent is
/// itself.
#[derive(Debug, Drop)]
pub struct Node {
    pub parent: u32,
    pub path: Rows<Step>,
    pub label: Sid,
    pub bytes: Option<Piece>,
}
