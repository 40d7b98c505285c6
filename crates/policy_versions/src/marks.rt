//! Marks on contexts, a row of types for each user and role.

ghost use Rattle.std.specs.Prelude.{◌≡◌, ℕ, ◌+◌, ◌*◌, ◌<◌, ◌≤◌, ◌&&◌, ◌||◌, ◌==◌, false, length, IfOk};
ghost use Rattle.policy_versions.specs.Numbers.{is_marked, AreBelow};
ghost use Rattle.policy_versions.specs.Steps.{StayMarked};

use crate::kind::Kind;
use flask_sid::Memory;
use std::alloc::Global;
use std::marker::Model;

/// A table of marks: rows of 128 cells, one for each type.
#[derive(Drop)]
pub(crate) struct Marks {
    cells: Vec<bool>,
    /// The types from this place on are marked in no row.
    bound: usize,
}

impl Model for Marks {
    ghost use Rattle.std.specs.Prelude.{List, Bool};
    ghost use Rattle.policy_versions.specs.Numbers.{AreBelow};

    ghost Value = { List Bool };

    ghost view = { λ marks. marks.cells.items };

    ghost invariant = { λ marks. AreBelow marks.cells.items marks.bound };
}

impl Marks {
    /// A table of so many rows in which nothing is marked.
    #[tactic(auto, unfolding(crate::specs::Numbers::is_marked))]
    pub(crate) fn new(alloc: Global, rows: u16) -> Result<Marks, Memory>
        ensures size { IfOk result (λ marks. length marks ≡ rows * 128) }
        ensures none { IfOk result (λ marks. (row kind : ℕ) → is_marked marks row kind ≡ false) }
    {
        Ok(Marks {
            cells: vec![in alloc; false; usize::from(rows) * 128]?,
            bound: 0,
        })
    }

    /// Whether the cell of a row and a type is marked.
    #[tactic(auto, unfolding(crate::specs::Numbers::is_marked))]
    pub(crate) fn has(&self, row: u16, kind: Kind) -> bool
        ensures value { result ≡ is_marked self.now row kind }
        ensures within { kind < 128 }
    {
        let at = cell_of(row, kind);
        match self.cells.as_slice().get(at) {
            Some(cell) => *cell,
            None => false,
        }
    }

    /// Marks the cell of a row and a type.
    pub(crate) fn mark(&mut self, row: u16, kind: Kind)
        requires { row * 128 + 128 ≤ length self.old }
        ensures size { length self.new ≡ length self.old }
        ensures stays { StayMarked self.old self.new }
        ensures marks { (r k : ℕ) → k < 128 → is_marked self.new r k ≡ (is_marked self.old r k || (row == r && kind == k)) }
    {
        mark_cell(&mut self.cells, row, kind);
        self.bound = self.bound.max(usize::from(kind.place()) + 1);
    }

    /// A place from which on no type is marked in any row, so that a walk over the types may end there.
    pub(crate) fn bound(&self) -> usize
        ensures { AreBelow self.now result }
    {
        self.bound
    }
}

#[tactic(auto, unfolding(crate::specs::Numbers::is_marked))]
fn mark_cell(cells: &mut Vec<bool>, row: u16, kind: Kind)
    requires { row * 128 + 128 ≤ length cells.old.items }
    ensures size { length cells.new.items ≡ length cells.old.items }
    ensures stays { StayMarked cells.old.items cells.new.items }
    ensures marks { (r k : ℕ) → k < 128 → is_marked cells.new.items r k ≡ (is_marked cells.old.items r k || (row == r && kind == k)) }
    ensures within { kind < 128 }
{
    cells[cell_of(row, kind)] = true;
}

fn cell_of(row: u16, kind: Kind) -> usize
    ensures value { result ≡ row * 128 + kind }
    ensures within { kind < 128 }
{
    usize::from(row) * 128 + usize::from(kind.place())
}
