//! What a file manager is opened with.

use crate::path::FilePath;
use flask_sid::{Piece, Rows, Sid};

/// A file or directory that is there when the manager is opened.
#[derive(Debug, Drop)]
pub struct Node {
    pub path: FilePath,
    pub sid: Sid,
    /// The bytes of a file; `None` for a directory.
    pub bytes: Option<Piece>,
}

/// What a file manager is opened with.
#[derive(Debug, Drop)]
pub struct FileOpening {
    /// The clients' identifiers, by client number.
    pub clients: Rows<Sid>,
    /// The root directory's label.
    pub root: Sid,
    /// The nodes below the root, in order: each stands in the root or in a directory before it.
    pub nodes: Rows<Node>,
}
