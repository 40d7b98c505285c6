//! The cells of one source type in a table.

ghost use Rattle.std.specs.Prelude.{◌≡◌, ℕ, ◌<◌, ◌==◌, true, false, slice_index, bit_and};
ghost use Rattle.policy_versions.specs.Sets.{has_place};
ghost use Rattle.policy_versions.specs.Changes.{blank_row, changed_if};

use crate::change::Change;
use crate::kind_set::KindSet;

/// The cells of one source, by the places of the targets. The fixed length lets a loop over a row be compiled to wide
/// instructions.
#[derive(Clone, Copy, Debug, PartialEq, Eq)]
pub(crate) struct Row {
    pub(crate) cells: [u16; 128],
}

impl Row {
    /// The row whose cells are all 0.
    pub(crate) fn empty() -> Row
        ensures cells { (t : ℕ) → slice_index result.cells t ≡ 0 }
        ensures blank { result ≡ blank_row }
    {
        Row { cells: [0; 128] }
    }

    /// Changes the cells of the targets in a set.
    pub(crate) fn change(&mut self, targets: &KindSet, change: Change)
        ensures { (t : ℕ) → t < 128 → slice_index self.new.cells t
            ≡ changed_if (has_place targets.now.words t) change (slice_index self.old.cells t) }
    {
        match targets.only() {
            Some(target) => self.change_one(target, change),
            None => self.change_each(targets, change),
        }
    }

    // Changes the cells of the targets in a set, by a walk over all cells.
    fn change_each(&mut self, targets: &KindSet, change: Change)
        ensures { (t : ℕ) → t < 128 → slice_index self.new.cells t
            ≡ changed_if (has_place targets.now.words t) change (slice_index self.old.cells t) }
    {
        'cells: for t in 0..128usize {
            let cell = self.cells[t];
            self.cells[t] = if targets.words[t] == 0 {
                cell
            } else {
                (cell & change.keep) | change.put
            };
        }
    }

    /// Changes the cell of one target.
    pub(crate) fn change_one(&mut self, target: usize, change: Change)
        requires { target < 128 }
        ensures { (t : ℕ) → t < 128 → slice_index self.new.cells t
            ≡ changed_if (target == t) change (slice_index self.old.cells t) }
    {
        self.cells[target] = (self.cells[target] & change.keep) | change.put;
    }

    /// Whether the cell of some target in a set has one of these bits.
    pub(crate) fn meets(&self, targets: &KindSet, bits: u16) -> bool
        ensures { result ≡ false → (t : ℕ) → t < 128 → has_place targets.now.words t ≡ true
            → bit_and (slice_index self.now.cells t) bits ≡ 0 }
    {
        match targets.only() {
            Some(target) => self.cells[target] & bits != 0,
            None => self.meets_some(targets, bits),
        }
    }

    // Whether the cell of some target in a set has one of these bits, by a walk over all cells.
    fn meets_some(&self, targets: &KindSet, bits: u16) -> bool
        ensures { result ≡ false → (t : ℕ) → t < 128 → has_place targets.now.words t ≡ true
            → bit_and (slice_index self.now.cells t) bits ≡ 0 }
    {
        let mut met = 0;
        'cells: for t in 0..128usize {
            met |= if targets.words[t] == 0 {
                0
            } else {
                self.cells[t] & bits
            };
        }
        met != 0
    }
}
