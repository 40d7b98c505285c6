//! The tables of all versions and classes, which share the rows that a version leaves as they were.

ghost use Rattle.std.specs.Prelude.{◌≡◌, ℕ, ◌+◌, ◌<◌, ◌≤◌, length, slice_get, slice_index, IfOk, OnOk, IsTrue, MatchOption};
ghost use Rattle.policy_model.specs.declared.policy.PolicyParts.{PolicyParts};
ghost use Rattle.policy_versions.specs.Kinds.{AreKindsOf};
ghost use Rattle.policy_versions.specs.Changes.{AreBlank, AreRules};
ghost use Rattle.policy_versions.specs.Cells.{cell_at, class_place, StandsAt, KeepsRows, AllTellFrom, TableTells};

use crate::block::Block;
use crate::blocks::{Blocks, place_of};
use crate::change::Content;
use crate::kind::Kind;
use crate::kinds::Kinds;
use crate::row::Row;
use access_vectors::Class;
use flask_sid::Memory;
use policy_model::{PolicyText, RuleLine};
use std::alloc::Global;

/// The rows of every version and class: 128 rows for each, one for each source. A class that has the rows of the
/// version before shares them.
#[derive(Drop)]
pub(crate) struct Table {
    /// For each version the place of each class's first row.
    firsts: Vec<[u32; 5]>,
    rows: Vec<Row>,
}

impl Table {
    /// The rows of all versions of a policy.
    pub(crate) fn compile(
        alloc: Global,
        policy: &PolicyText,
        kinds: &Kinds,
        content: Content,
    ) -> Result<Table, Memory>
        requires { AreKindsOf policy.now kinds.now }
        ensures { IfOk result (λ table. TableTells content policy.now table) }
    {
        let mut blocks = Blocks::new(alloc)?;
        let mut rows = vec![in alloc; Row::empty(); 128]?;
        let mut firsts = Vec::new(alloc);
        let mut before = [0; 5];
        'versions: for version in policy.parts().versions.as_slice() {
            let rules = version.rules.as_slice();
            before = draw_version(&mut rows, &mut blocks, kinds, content, rules, before)?;
            firsts.push(before)?;
        }
        Ok(Table { firsts, rows })
    }

    /// The cell of a version, a source, a target and a class: 0 for a version that is not there.
    pub(crate) fn cell(&self, version: u8, s: Kind, t: Kind, class: Class) -> u16
        ensures { result ≡ cell_at self.now version s t class }
    {
        match self.row(version, s, class) {
            None => 0,
            Some(row) => row.cells[usize::from(t.place())],
        }
    }

    /// Whether the rows of two versions are known to be the same, since they stand at the same places.
    pub(crate) fn shares_rows(&self, version: u8, other: u8) -> bool
        ensures { IsTrue result → (s t : ℕ) (class : Class) → cell_at self.now version s t class ≡ cell_at self.now other s t class }
    {
        match (self.firsts_of(version), self.firsts_of(other)) {
            (Some(mine), Some(others)) => mine == others,
            _ => false,
        }
    }

    // The place of each class's first row in a version.
    fn firsts_of(&self, version: u8) -> Option<[u32; 5]>
        ensures { result ≡ slice_get self.now.firsts.items version }
    {
        self.firsts.as_slice().get(usize::from(version)).copied()
    }

    /// The row of a version, a source and a class: `None` only for a version that is not there.
    pub(crate) fn row(&self, version: u8, s: Kind, class: Class) -> Option<&Row>
        ensures { MatchOption result ((t : ℕ) → cell_at self.now version s t class ≡ 0)
            (λ row. (t : ℕ) → cell_at self.now version s t class ≡ slice_index row.now.cells t) }
    {
        let firsts = self.firsts.as_slice().get(usize::from(version))?;
        let first = firsts[place_of(class)] as usize;
        self.rows.as_slice().get(first + usize::from(s.place()))
    }
}

// Draws the rule lines of a version, and answers the place of each class's first row. `before` has those of the version
// before, whose rows may be shared.
fn draw_version(
    rows: &mut Vec<Row>,
    blocks: &mut Blocks,
    kinds: &Kinds,
    content: Content,
    rules: &[RuleLine],
    before: [u32; 5],
) -> Result<[u32; 5], Memory>
    requires few { length rows.old.items ≤ 65536 }
    requires blank { AreBlank rows.old.items }
    ensures few { OnOk result (length rows.new.items ≤ length rows.old.items + 640) }
    ensures keeps { OnOk result (KeepsRows rows.old.items rows.new.items) }
    ensures tell { IfOk result (λ firsts. (policy : PolicyParts) → AreKindsOf policy kinds.now → AreRules policy rules.now
        → AllTellFrom content policy rules.now rows.new.items firsts) }
{
    blocks.draw(kinds, content, rules);
    let mut firsts = before;
    'classes: for at in 0..5usize {
        firsts[at] = place(rows, &blocks.drawn[at], firsts[at])?;
    }
    Ok(firsts)
}

// The place from which a block's rows stand: at the front or at `before` where they stand there already, and else
// behind all others. The rows at the front are blank.
fn place(rows: &mut Vec<Row>, block: &Block, before: u32) -> Result<u32, Memory>
    requires few { length rows.old.items ≤ 131072 }
    requires blank { AreBlank rows.old.items }
    ensures few { OnOk result (length rows.new.items ≤ length rows.old.items + 128) }
    ensures keeps { OnOk result (KeepsRows rows.old.items rows.new.items) }
    ensures stands { IfOk result (λ first. StandsAt rows.new.items block.now.rows.items first) }
{
    if !block.is_drawn {
        return Ok(0);
    }
    if stands_at(rows, block, 0) {
        return Ok(0);
    }
    if stands_at(rows, block, before) {
        return Ok(before);
    }
    let first = rows.len() as u32;
    rows.extend_from_slice(block.rows.as_slice())?;
    Ok(first)
}

fn stands_at(rows: &[Row], block: &Block, first: u32) -> bool
    ensures { IsTrue result → StandsAt rows.now block.now.rows.items first }
{
    for s in 0..128usize {
        match rows.get(first as usize + s) {
            None => return false,
            Some(row) => if *row != block.rows[s] {
                return false;
            }
        }
    }
    true
}
