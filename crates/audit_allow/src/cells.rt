//! Denied permissions by the places of two types and the class.

ghost use Rattle.std.specs.Prelude.{◌≡◌, ◌<◌, ℕ, [], OnOk, if◌then◌else◌, ◌==◌};
ghost use Rattle.access_vectors.specs.Vectors.{with_index};
ghost use Rattle.audit_allow.specs.Cells.{cell_key, vector_at};

use access_vectors::{Class, Perm, Vector};
use flask_sid::Memory;
use std::alloc::Global;
use std::collections::BTreeMap;
use std::marker::Model;

/// A vector for each pair of types and each class. Contracts see rows, each a key and a vector, in the order of their keys.
#[derive(Debug, Drop)]
pub(crate) struct Cells {
    rows: BTreeMap<u32, Vector>,
}

impl Model for Cells {
    ghost use Rattle.std.specs.Prelude.{ℕ, List};

    ghost Value = { List (ℕ × ℕ) };

    ghost view = { λ cells. cells.rows.entries };
}

fn key_of(s: u8, t: u8, class: Class) -> u32
    ensures { result ≡ cell_key s t class }
{
    1024 * u32::from(s) + 8 * u32::from(t) + u32::from(class.code())
}

impl Cells {
    /// Empty cells, which take no memory yet.
    pub(crate) fn new(alloc: Global) -> Cells
        ensures { result ≡ [] }
    {
        Cells {
            rows: BTreeMap::new(alloc),
        }
    }

    /// The vector in a cell.
    #[tactic(auto, unfolding(crate::specs::Cells::vector_at))]
    pub(crate) fn vector(&self, s: u8, t: u8, class: Class) -> Vector
        ensures { result ≡ vector_at self.now (cell_key s t class) }
    {
        self.rows
            .get(&key_of(s, t, class))
            .copied()
            .unwrap_or(Vector::empty())
    }

    /// Puts a permission into its cell.
    pub(crate) fn put(&mut self, s: u8, t: u8, perm: Perm) -> Result<(), Memory>
        ensures { OnOk result ((key : ℕ) → vector_at self.new key
            ≡ (if key == cell_key s t perm.class then with_index (vector_at self.old key) perm.index else vector_at self.old key)) }
    {
        let vector = self.vector(s, t, perm.class()).with(perm.index());
        self.rows.insert(key_of(s, t, perm.class()), vector)?;
        Ok(())
    }
}
