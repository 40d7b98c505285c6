//! How the grants' table and its indexes change together.

ghost use Rattle.std.specs.Prelude.{◌≡◌, ℕ, ◌*◌, ◌<◌, ◌≤◌, ◌==◌, ◌&&◌, ◌||◌, not, true, false, None, Some, length, OnOk, OnErr, if◌then◌else◌};
ghost use Rattle.std.specs.FinMap as maps;
ghost use Rattle.slot_tables.specs.Words.{holds};
ghost use Rattle.slot_tables.specs.Slots.{map_of};
ghost use Rattle.slot_tables.specs.Rows.{on, has_row};
ghost use Rattle.retained_rights.specs.Rights.{is_on};
ghost use Rattle.retained_rights.specs.Stored;
ghost use Rattle.retained_rights.specs.Stored.{IsIndexed, HaveRows, has_pair};

use crate::grant::Grant;
use flask_sid::{Memory, Sid};
use slot_tables::{PlaceIndex, PlaceSet, Table};

/// The number by which the index knows a pair.
pub(crate) fn pair_name(s: Sid, t: Sid) -> u32
    ensures { result ≡ Stored.pair_name s t }
{
    4096 * u32::from(s.number()) + u32::from(t.number())
}

// Makes room for a slot in the table and among the stale slots. All is as before, also after `Memory`.
fn make_room(table: &mut Table<Grant>, stale: &mut PlaceSet, place: u32) -> Result<(), Memory>
    requires { place < 65536 }
    ensures map { map_of table.new ≡ map_of table.old }
    ensures held { (q : ℕ) → holds stale.new q ≡ holds stale.old q }
    ensures more { length stale.old ≤ length stale.new }
    ensures slot { OnOk result (place < length table.new) }
    ensures room { OnOk result (place < 64 * length stale.new) }
{
    stale.grow(place)?;
    table.grow(place)
}

// Gives a free slot its place in both indexes. After `Memory` both say what they said.
fn put_both(
    by_pair: &mut PlaceIndex,
    name: u32,
    by_object: &mut PlaceIndex,
    object: u32,
    place: u32,
) -> Result<(), Memory>
    requires small { place < 65536 }
    requires free { on by_pair.old name place ≡ false }
    ensures pairs { OnOk result ((n q : ℕ) → on by_pair.new n q ≡ ((n == name && q == place) || on by_pair.old n q)) }
    ensures objects { OnOk result ((n q : ℕ) → on by_object.new n q ≡ ((n == object && q == place) || on by_object.old n q)) }
    ensures pairs_as_before { OnErr result ((n q : ℕ) → on by_pair.new n q ≡ on by_pair.old n q) }
    ensures objects_as_before { OnErr result ((n q : ℕ) → on by_object.new n q ≡ on by_object.old n q) }
{
    by_pair.put(name, place)?;
    let Ok(()) = by_object.put(object, place) else {
        by_pair.remove(name, place);
        return Err(Memory);
    };
    Ok(())
}

/// Fills a free slot in the table and in both indexes, and lists it among the stale ones if it is to be one.
pub(crate) fn fill(
    table: &mut Table<Grant>,
    stale: &mut PlaceSet,
    by_pair: &mut PlaceIndex,
    by_object: &mut PlaceIndex,
    place: u32,
    grant: Grant,
    is_stale: bool,
) -> Result<(), Memory>
    requires small { place < 65536 }
    requires free { maps.get (map_of table.old) place ≡ None }
    requires indexed { IsIndexed (map_of table.old) stale.old by_pair.old by_object.old }
    ensures map { OnOk result (map_of table.new ≡ maps.insert (map_of table.old) place grant) }
    ensures held { OnOk result ((q : ℕ) → holds stale.new q ≡ ((is_stale && q == place) || holds stale.old q)) }
    ensures as_before { OnErr result (map_of table.new ≡ map_of table.old) }
    ensures none_stale { OnErr result ((q : ℕ) → holds stale.new q ≡ holds stale.old q) }
    ensures indexed { IsIndexed (map_of table.new) stale.new by_pair.new by_object.new }
{
    let Grant { object, s, t, .. } = grant;
    let name = pair_name(s, t);
    make_room(table, stale, place)?;
    put_both(by_pair, name, by_object, object, place)?;
    table.set(place, grant);
    if is_stale {
        stale.add(place);
    }
    Ok(())
}

/// Moves a place in the index from one name to another, which has a row for it.
pub(crate) fn move_place(by_pair: &mut PlaceIndex, from: u32, to: u32, place: u32)
    requires small { place < 65536 }
    requires here { on by_pair.old from place ≡ true }
    requires row { has_row by_pair.old to place ≡ true }
    ensures on { (n q : ℕ) → on by_pair.new n q ≡ ((n == to && q == place) || (not (n == from && q == place) && on by_pair.old n q)) }
    ensures rows { (n q : ℕ) → q < 65536 → (n ≡ from → n ≡ to) → has_row by_pair.old n q ≡ true → has_row by_pair.new n q ≡ true }
{
    if from != to {
        by_pair.remove(from, place);
        by_pair.add(to, place);
    }
}

/// Says of a slot, for which there is room, whether it is stale.
pub(crate) fn set_stale(stale: &mut PlaceSet, place: u32, is_stale: bool)
    requires { place < 64 * length stale.old }
    ensures held { (q : ℕ) → holds stale.new q ≡ (if q == place then is_stale else holds stale.old q) }
    ensures room { length stale.new ≡ length stale.old }
{
    if is_stale {
        stale.add(place);
    } else {
        stale.remove(place);
    }
}

// Gives up the rows that the slots of an object would need for another label, where they have no place.
fn give_up_rows(
    table: &Table<Grant>,
    by_object: &PlaceIndex,
    by_pair: &mut PlaceIndex,
    object: u32,
    t: Sid,
)
    requires { (n q : ℕ) → on by_pair.old n q ≡ has_pair n (maps.get (map_of table.now) q) }
    ensures { (n q : ℕ) → on by_pair.new n q ≡ on by_pair.old n q }
{
    let mut from = 0;
    while let Some(place) = by_object.next(object, from) {
        if let Some(grant) = table.get(place) {
            give_up_row(by_pair, grant, t, place);
        }
        from = place + 1;
    }
}

// Gives up the row that a slot would need for another label, where it has no place.
fn give_up_row(by_pair: &mut PlaceIndex, grant: Grant, t: Sid, place: u32)
    requires small { place < 65536 }
    requires here { (n : ℕ) → on by_pair.old n place ≡ has_pair n (Some grant) }
    ensures { (n q : ℕ) → on by_pair.new n q ≡ on by_pair.old n q }
{
    let Grant { s, t: before, .. } = grant;
    let name = pair_name(s, t);
    if pair_name(s, before) != name {
        by_pair.remove(name, place);
    }
}

/// Makes the rows that the slots of an object need for another label. The index says what it said, also after `Memory`.
pub(crate) fn make_pair_rows(
    table: &Table<Grant>,
    by_object: &PlaceIndex,
    by_pair: &mut PlaceIndex,
    object: u32,
    t: Sid,
) -> Result<(), Memory>
    requires on_object { (q : ℕ) → on by_object.now object q ≡ is_on object (maps.get (map_of table.now) q) }
    requires on_pairs { (n q : ℕ) → on by_pair.old n q ≡ has_pair n (maps.get (map_of table.now) q) }
    ensures on { (n q : ℕ) → on by_pair.new n q ≡ on by_pair.old n q }
    ensures rows { OnOk result (HaveRows (map_of table.now) by_pair.new object t) }
{
    let mut from = 0;
    while let Some(place) = by_object.next(object, from) {
        if let Some(grant) = table.get(place) {
            let Ok(()) = by_pair.make_row(pair_name(grant.s, t), place) else {
                give_up_rows(table, by_object, by_pair, object, t);
                return Err(Memory);
            };
        }
        from = place + 1;
    }
    Ok(())
}
