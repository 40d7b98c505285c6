//! How a change of policy finds its stale slots, by their pairs.

ghost use Rattle.std.specs.Prelude.{◌≡◌, ℕ, ◌*◌, ◌<◌, ◌==◌, false, Some, length, IsTrue, if◌then◌else◌};
ghost use Rattle.std.specs.FinMap as maps;
ghost use Rattle.slot_tables.specs.Words.{holds};
ghost use Rattle.slot_tables.specs.Slots.{map_of};
ghost use Rattle.slot_tables.specs.Rows.{on};
ghost use Rattle.retained_rights.specs.declared.grant.Grant.{Grant};
ghost use Rattle.retained_rights.specs.Stored.{AreKnown, IsRowOf, IsGrantInRow, has_pair, is_changed};

use crate::grant::Grant;
use access_vectors::{Class, Decider};
use slot_tables::{PlaceIndex, PlaceSet, Table};

// The grant of the first slot of a row of the index by pair, or `None` exactly where the row has none.
fn grant_in_row(table: &Table<Grant>, key: u64, word: u64) -> Option<Grant>
    requires { IsRowOf (map_of table.now) key word }
    ensures { IsGrantInRow (map_of table.now) key word result }
{
    if word == 0 {
        return None;
    }
    table.get((64 * (key % 1024)) as u32 + word.trailing_zeros())
}

// The pair that was asked about last, and whether its vectors differ.
#[derive(Clone, Copy)]
struct Asked {
    pair: u64,
    differs: bool,
}

// What is known of a grant's pair, which is asked about if it is not the pair that was asked about last.
fn ask_once<D: Decider>(
    asked: Asked,
    pair: u64,
    grant: Grant,
    decider: &D,
    class: Class,
    old: u8,
    new: u8,
) -> Asked
    requires old_version { old < (D.decides decider.now).versions }
    requires new_version { new < (D.decides decider.now).versions }
    requires source { IsTrue ((D.decides decider.now).known grant.s) }
    requires target { IsTrue ((D.decides decider.now).known grant.t) }
    ensures pair { result.pair ≡ pair }
    ensures differs { result.differs ≡ (if asked.pair == pair then asked.differs else is_changed (D.decides decider.now) class old new (Some grant)) }
{
    if asked.pair == pair {
        return asked;
    }
    let Grant { s, t, .. } = grant;
    let before = decider.vector(old, s, t, class).bits();
    let after = decider.vector(new, s, t, class).bits();
    Asked {
        pair,
        differs: before != after,
    }
}

/// Lists the slots whose pairs have other vectors in a version than in another, each pair being asked about once.
pub(crate) fn mark_rows<D: Decider>(
    decider: &D,
    class: Class,
    old: u8,
    new: u8,
    table: &Table<Grant>,
    by_pair: &PlaceIndex,
    stale: &mut PlaceSet,
)
    requires old_version { old < (D.decides decider.now).versions }
    requires new_version { new < (D.decides decider.now).versions }
    requires known { AreKnown (D.decides decider.now) (map_of table.now) }
    requires none { (q : ℕ) → holds stale.old q ≡ false }
    requires indexed { (n q : ℕ) → on by_pair.now n q ≡ has_pair n (maps.get (map_of table.now) q) }
    requires room { (q : ℕ) (grant : Grant) → maps.get (map_of table.now) q ≡ Some grant → q < 64 * length stale.old }
    ensures held { (q : ℕ) → holds stale.new q ≡ is_changed (D.decides decider.now) class old new (maps.get (map_of table.now) q) }
    ensures room { length stale.new ≡ length stale.old }
{
    let mut asked = Asked {
        pair: u64::MAX,
        differs: false,
    };
    for (key, word) in by_pair.rows() {
        let Some(grant) = grant_in_row(table, *key, *word) else {
            continue;
        };
        asked = ask_once(asked, *key / 1024, grant, decider, class, old, new);
        if asked.differs {
            stale.add_word((*key % 1024) as usize, *word);
        }
    }
}
