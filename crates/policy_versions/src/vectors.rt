//! The permissions that each version gives a source type on a target type.

ghost use Rattle.std.specs.Prelude.{◌≡◌, ℕ, ◌<◌, true, false, slice_index, bit_and, IfOk, MatchOption};
ghost use Rattle.policy_versions.specs.Sets.{has_place};
ghost use Rattle.policy_versions.specs.Kinds.{AreKindsOf};
ghost use Rattle.policy_versions.specs.Vectors.{AreVectorsOf, vector_at};

use crate::change::Content;
use crate::kind::Kind;
use crate::kind_set::KindSet;
use crate::kinds::Kinds;
use crate::table::Table;
use access_vectors::{Class, Vector};
use flask_sid::Memory;
use policy_model::PolicyText;
use std::alloc::Global;

/// The vectors of all versions of a policy.
#[derive(Drop)]
pub struct VectorRows {
    table: Table,
}

impl VectorRows {
    /// The vectors that a policy's lines decide.
    pub fn compile(alloc: Global, policy: &PolicyText, kinds: &Kinds) -> Result<VectorRows, Memory>
        requires { AreKindsOf policy.now kinds.now }
        ensures { IfOk result (λ rows. AreVectorsOf policy.now rows) }
    {
        let table = Table::compile(alloc, policy, kinds, Content::Vectors)?;
        Ok(VectorRows { table })
    }

    /// The permissions of a class that a source has on a target in a version: none in a version that is not there.
    pub fn cell(&self, version: u8, s: Kind, t: Kind, class: Class) -> Vector
        ensures { result ≡ vector_at self.now version s t class }
    {
        match self.table.row(version, s, class) {
            None => Vector::of(0),
            Some(row) => Vector::of(row.cells[usize::from(t.place())]),
        }
    }

    /// The vectors of a class that a source has in a version, by the places of the targets: `None` only for a version that is
    /// not there, in which it has no permission.
    pub fn row(&self, version: u8, s: Kind, class: Class) -> Option<&[u16; 128]>
        ensures { MatchOption result ((t : ℕ) → vector_at self.now version s t class ≡ 0)
            (λ row. (t : ℕ) → vector_at self.now version s t class ≡ slice_index row.now t) }
    {
        match self.table.row(version, s, class) {
            None => None,
            Some(row) => Some(&row.cells),
        }
    }

    /// Whether, in a version, a source may have one of these permissions of a class on some target in a set: where not,
    /// it has none of them on any.
    pub(crate) fn meets(
        &self,
        version: u8,
        s: Kind,
        targets: &KindSet,
        class: Class,
        perms: Vector,
    ) -> bool
        ensures { result ≡ false → (t : ℕ) → t < 128 → has_place targets.now.words t ≡ true
            → bit_and (vector_at self.now version s t class) perms ≡ 0 }
    {
        match self.table.row(version, s, class) {
            None => false,
            Some(row) => row.meets(targets, perms.bits()),
        }
    }
}
