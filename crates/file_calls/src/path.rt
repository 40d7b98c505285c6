//! Paths, as lists of their parts.

ghost use Rattle.std.specs.Prelude.{◌≡◌, ◌-◌, ◌==◌, [], ◌∷◌, ◌++◌, length, take, OnOk, OnErr, IfOk, slice_get};
ghost use Rattle.std.specs.Option.{option_copied};
ghost use Rattle.file_calls.specs.Paths.{same_path};

use flask_sid::{Memory, Piece, Rows};
use std::alloc::Global;
use std::marker::Model;

/// A path: its parts in order, none for `/`.
#[derive(Debug, Drop)]
pub struct FilePath {
    parts: Rows<Piece>,
}

impl Model for FilePath {
    ghost use Rattle.std.specs.Prelude.{List, ℕ};

    ghost Value = { List (List ℕ) };

    ghost view = { λ path. path.parts };
}

impl FilePath {
    /// The path `/`, which takes no memory.
    pub fn new(alloc: Global) -> FilePath
        ensures { result ≡ [] }
    {
        FilePath {
            parts: Rows::new(alloc),
        }
    }

    /// The path `/`, with room for so many parts.
    pub fn with_room(alloc: Global, parts: usize) -> Result<FilePath, Memory>
        ensures { IfOk result (λ path. path ≡ []) }
    {
        let parts = Vec::with_capacity(alloc, parts)?;
        Ok(FilePath {
            parts: Rows::from_vec(parts),
        })
    }

    /// Adds a part at the end. After `Memory` the path is as before.
    pub fn push(&mut self, part: Piece) -> Result<(), Memory>
        ensures ok { OnOk result (self.new ≡ self.old ++ part ∷ []) }
        ensures err { OnErr result (self.new ≡ self.old) }
    {
        self.parts.push(part)
    }

    /// How many parts the path has.
    pub fn len(&self) -> usize
        ensures { result ≡ length self.now }
    {
        self.parts.len()
    }

    /// Whether the path is `/`.
    pub fn is_empty(&self) -> bool
        ensures { result ≡ (length self.now == 0) }
    {
        self.parts.is_empty()
    }

    /// The part at a place, or `None` exactly where the place is not below the length.
    pub fn get(&self, at: usize) -> Option<&Piece>
        ensures { option_copied result ≡ slice_get self.now at }
    {
        self.parts.get(at)
    }

    /// The parts in order.
    pub fn as_slice(&self) -> &[Piece]
        ensures { result.now ≡ self.now }
    {
        self.parts.as_slice()
    }

    /// Whether the two paths are the same.
    pub fn is(&self, other: &FilePath) -> bool
        ensures { result ≡ same_path self.now other.now }
    {
        same_parts(self.parts.as_slice(), other.parts.as_slice())
    }

    /// Whether this is the other path without its last part.
    pub fn is_parent_of(&self, other: &FilePath) -> bool
        ensures { result ≡ same_path self.now (take (length other.now - 1) other.now) }
    {
        let parts = other.parts.as_slice();
        let (above, _last) = parts.split_at(parts.len().saturating_sub(1));
        same_parts(self.parts.as_slice(), above)
    }
}

fn same_parts(parts: &[Piece], others: &[Piece]) -> bool
    ensures { result ≡ same_path parts.now others.now }
{
    match (parts, others) {
        ([], []) => true,
        ([part, rest @ ..], [other, behind @ ..]) => {
            part.as_bytes() == other.as_bytes() && same_parts(rest, behind)
        }
        _ => false,
    }
}
