//! One function for each kind of atomic step, on one seat of the table.
ghost use Rattle.std.specs.Prelude.{◌≡◌, ◌≢◌, ℕ, ◌+◌, ◌<◌, [], ◌∷◌, Some, None, true, IfSome, IfNone};
ghost use Rattle.gate_rule.specs.declared.view.Fixed.{Fixed};
ghost use Rattle.gate_rule.specs.declared.view.Role.TheVariants.{Admin as TheAdmin};
ghost use Rattle.gate_rule.specs.declared.view.Ticket.TheVariants.{Without, Drawn};
ghost use Rattle.gate_rule.specs.declared.view.Pass.TheVariants.{Out};
ghost use Rattle.gate_rule.specs.History.{settled_in};
ghost use Rattle.gate_rule.specs.Rows.{key_word};
ghost use Rattle.gate_rule.specs.Tickets.{has_turn};
ghost use Rattle.gate_rule.specs.Views.{IsLive, number_of, leave_word};
ghost use Rattle.gate_rule.specs.Views;
ghost use Rattle.gate_rule.specs.Rule.{IsOf};
ghost use Rattle.gate_rule.specs.Told.{Extends, Takes, Stands};
ghost use Rattle.gate_rule.specs.Told;
ghost use Rattle.atomic_table.specs.Table.{step};
ghost use mathlib.Core.Option.{none};
ghost use Rattle.epoch_gate.specs.Seats.{IsAt, IsCaller, IsInside, IsRowFor, key_of};

use access_vectors::{Class, Decider};
use flask_sid::Sid;
use gate_rule::{
    Count, Draw, Enter, FillRow, Give, Glance, Journal, Leave, LookRow, Make, Place, Poll, Raise,
    Retire, Sought, Words,
};
use row_words::{raise_by, row_place};

/// A pass with the number and version of the word found.
pub(crate) fn enter<V: Journal<D>, D: Decider>(words: &Words<V, D>, place: &mut Place<V, D>) -> u64
    requires table { IsAt words.now.table_id place.old.table_id }
    requires seat { IsCaller place.old.me.0.role × (place.old.me.0.rights.pass ≡ Out) × (0 < place.old.me.0.rights.quota) }
    ensures table { place.new.table_id ≡ place.old.table_id }
    ensures told { Told.enters V.means D.decides (step words.now.table_id.slots 0 1 0 none) place.old.me result place.new.me }
{
    words.fetch_add::<Enter>(place, 0, 1)
}

/// The pass of this number is given back.
pub(crate) fn leave<V: Journal<D>, D: Decider>(
    words: &Words<V, D>,
    place: &mut Place<V, D>,
    number: u32,
) -> u64
    requires table { IsAt words.now.table_id place.old.table_id }
    requires seat { IsCaller place.old.me.0.role × IsInside place.old.me.0.rights.pass }
    requires number { number_of place.old.me.0.rights.pass ≡ number }
    ensures table { place.new.table_id ≡ place.old.table_id }
    ensures told { Told.leaves V.means D.decides (step words.now.table_id.slots (leave_word number) 1 0 none) place.old.me result place.new.me }
{
    words.fetch_add::<Leave>(place, 1 + (number % 2) as usize, 1)
}

/// A ticket.
pub(crate) fn draw<V: Journal<D>, D: Decider>(words: &Words<V, D>, place: &mut Place<V, D>) -> u64
    requires table { IsAt words.now.table_id place.old.table_id }
    requires seat { IsLive place.old.me.0.role × (place.old.me.0.ticket ≡ Without) }
    ensures table { place.new.table_id ≡ place.old.table_id }
    ensures told { Told.draws V.means D.decides (step words.now.table_id.slots 3 1 0 none) place.old.me result place.new.me }
{
    words.fetch_add::<Draw>(place, 3, 1)
}

/// The value, where the ticket is served.
pub(crate) fn poll<V: Journal<D>, D: Decider>(
    words: &Words<V, D>,
    place: &mut Place<V, D>,
    ticket: u64,
) -> Option<V>
    requires table { IsAt words.now.table_id place.old.table_id }
    requires seat { IsLive place.old.me.0.role × (place.old.me.0.ticket ≡ Drawn ticket) × (place.old.me.1 ≡ []) }
    ensures table { place.new.table_id ≡ place.old.table_id }
    ensures turn { IfSome result (λ value. (place.new.me ≡ (Views.took V.means value place.old.me.0 ticket, (0, None) ∷ [])) × Takes V.means place.old.me.0 value) }
    ensures wait { IfNone result (place.new.me ≡ (Views.missed place.old.me.0 place.new.me.0.trace.last.found, [])) }
    ensures missed { IfNone result (place.new.me.0.trace.last.found ≢ ticket) }
    ensures rule { IfSome result (λ value. Stands V.means D.decides place.old.me.0 4 ticket) }
{
    let found = words.load::<Poll>(place, 4);
    if found != ticket {
        return None;
    }
    let Some(value) = words.exchange(place, 0, None) else {
        unreachable!()
    };
    Some(value)
}

/// The value is put back, and the turn is passed on.
pub(crate) fn give<V: Journal<D>, D: Decider>(
    words: &Words<V, D>,
    place: &mut Place<V, D>,
    value: V,
)
    requires table { IsAt words.now.table_id place.old.table_id }
    requires seat { IsLive place.old.me.0.role × (has_turn place.old.me.0.ticket ≡ true) × (place.old.me.1 ≡ (0, None) ∷ []) }
    requires history { Extends V.means.kind place.old.me.0 (V.means.history value) }
    requires value { (f : Fixed D V.Opening) → place.old.me.0.fixed ≡ Some f → IsOf V.means f value }
    ensures table { place.new.table_id ≡ place.old.table_id }
    ensures given { place.new.me ≡ (Views.gave V.means value place.old.me.0 place.new.me.0.trace.last.found, []) }
    ensures rule { Stands V.means D.decides place.old.me.0 4 place.new.me.0.trace.last.found }
{
    let left = words.exchange(place, 0, Some(value));
    let None = left else { unreachable!() };
    words.fetch_add::<Give>(place, 4, 1);
}

/// The number is one more, with another version in place of the old one.
pub(crate) fn raise<V: Journal<D>, D: Decider>(
    words: &Words<V, D>,
    place: &mut Place<V, D>,
    old: u8,
    new: u8,
) -> u64
    requires table { IsAt words.now.table_id place.old.table_id }
    requires seat { (place.old.me.0.role ≡ TheAdmin) × (has_turn place.old.me.0.ticket ≡ true) }
    requires rest { settled_in V.means.kind place.old.me.0.seen ≡ place.old.me.0.admin_view.newest }
    requires version { place.old.me.0.admin_view.version ≡ old }
    requires allowed { (f : Fixed D V.Opening) → place.old.me.0.fixed ≡ Some f → (place.old.me.0.admin_view.newest < f.most) × (new < (D.decides f.decider).versions) }
    ensures table { place.new.table_id ≡ place.old.table_id }
    ensures told { (amount : ℕ) × Told.raises V.means D.decides (step words.now.table_id.slots 0 amount 0 none) place.old.me result place.new.me }
    ensures version { place.new.me.0.admin_view.version ≡ new }
{
    let amount = raise_by(old, new);
    words.fetch_add::<Raise>(place, 0, amount)
}

/// How many passes of the other parity than the number's were left.
pub(crate) fn count<V: Journal<D>, D: Decider>(
    words: &Words<V, D>,
    place: &mut Place<V, D>,
    number: u32,
) -> u64
    requires table { IsAt words.now.table_id place.old.table_id }
    requires seat { (place.old.me.0.role ≡ TheAdmin) × (has_turn place.old.me.0.ticket ≡ true) }
    requires pending { settled_in V.means.kind place.old.me.0.seen ≢ place.old.me.0.admin_view.newest }
    requires number { (place.old.me.0.admin_view.newest ≡ number) × (number < 1048576) }
    ensures table { place.new.table_id ≡ place.old.table_id }
    ensures told { Told.counts V.means D.decides (step words.now.table_id.slots (leave_word (number + 1)) 0 0 none) place.old.me result place.new.me }
{
    words.load::<Count>(place, 1 + ((number + 1) % 2) as usize)
}

/// A glance at the gate word.
pub(crate) fn glance<V: Journal<D>, D: Decider>(words: &Words<V, D>, place: &mut Place<V, D>) -> u64
    requires table { IsAt words.now.table_id place.old.table_id }
    requires seat { place.old.me.0.role ≡ TheAdmin }
    ensures table { place.new.table_id ≡ place.old.table_id }
    ensures told { Told.glances V.means D.decides (step words.now.table_id.slots 0 0 0 none) place.old.me result place.new.me }
{
    words.load::<Glance>(place, 0)
}

/// The word of a key's row, for the key that the call picks.
pub(crate) fn look_row<V: Journal<D>, D: Decider, K: Sought>(
    words: &Words<V, D>,
    place: &mut Place<V, D>,
    s: Sid,
    t: Sid,
    c: Class,
) -> u64
    requires table { IsAt words.now.table_id place.old.table_id }
    requires seat { IsCaller place.old.me.0.role × IsInside place.old.me.0.rights.pass }
    requires key { K.sought ≡ key_of s t c }
    ensures table { place.new.table_id ≡ place.old.table_id }
    ensures told { Told.sees_row V.means D.decides (key_of s t c) (step words.now.table_id.slots (key_word (key_of s t c)) 0 0 none) place.old.me result place.new.me }
{
    let at = 5 + row_place(s, t, c);
    words.load::<LookRow<K>>(place, at)
}

/// Another word for a key's row, for the key that the call picks.
pub(crate) fn fill_row<V: Journal<D>, D: Decider, K: Sought>(
    words: &Words<V, D>,
    place: &mut Place<V, D>,
    s: Sid,
    t: Sid,
    c: Class,
    row: u64,
) -> u64
    requires table { IsAt words.now.table_id place.old.table_id }
    requires seat { IsCaller place.old.me.0.role × IsInside place.old.me.0.rights.pass }
    requires key { K.sought ≡ key_of s t c }
    requires row { IsRowFor D.decides place.old.me.0 (key_of s t c) row }
    ensures table { place.new.table_id ≡ place.old.table_id }
    ensures told { Told.fills_row V.means D.decides (key_of s t c) (step words.now.table_id.slots (key_word (key_of s t c)) row 0 none) place.old.me result place.new.me }
{
    let at = 5 + row_place(s, t, c);
    words.swap::<FillRow<K>>(place, at, row)
}

/// A new seat, made by the administrator.
pub(crate) fn make<V: Journal<D>, D: Decider>(
    words: &Words<V, D>,
    place: &mut Place<V, D>,
) -> Place<V, D>
    requires table { IsAt words.now.table_id place.old.table_id }
    requires seat { place.old.me.0.role ≡ TheAdmin }
    requires room { (f : Fixed D V.Opening) → place.old.me.0.fixed ≡ Some f → place.old.me.0.admin_view.made < f.seats }
    ensures table { (place.new.table_id ≡ place.old.table_id) × (result.table_id ≡ place.old.table_id) }
    ensures kept { place.new.me ≡ (Views.with_seat place.old.me.0, place.old.me.1) }
    ensures made { result.me ≡ (Views.new_seat place.old.me.0, []) }
{
    words.split_seat::<Make>(place)
}

/// A seat is taken in by the administrator.
pub(crate) fn retire<V: Journal<D>, D: Decider>(
    words: &Words<V, D>,
    place: &mut Place<V, D>,
    other: Place<V, D>,
)
    requires table { IsAt words.now.table_id place.old.table_id × (other.table_id ≡ words.now.table_id) }
    requires seat { place.old.me.0.role ≡ TheAdmin }
    requires other { IsCaller other.me.0.role × (other.me.0.ticket ≡ Without) × (other.me.0.rights.pass ≡ Out) × (other.me.1 ≡ []) }
    ensures table { place.new.table_id ≡ place.old.table_id }
    ensures kept { place.new.me ≡ (Views.with_ended place.old.me.0 other.me.0, place.old.me.1) }
{
    words.join_seat::<Retire>(place, other);
}
