//! The contexts of a compiled policy, with identifiers in their order and the places of its tables.

ghost use Rattle.std.specs.Prelude.{◌≡◌, ◌≤◌, Err, length, take, IfOk};
ghost use Rattle.std.specs.List.{All, IsDistinct};
ghost use Rattle.flask_sid.specs.SidTables.{AreDistinct};
ghost use Rattle.policy_versions.specs.declared.fill.FillFault.TheVariants as fill_fault;
ghost use Rattle.policy_versions.specs.Kinds.{AreKindsOf};
ghost use Rattle.policy_versions.specs.Given.{AreGivenOf};
ghost use Rattle.policy_versions.specs.Numbers.{AreRows};
ghost use Rattle.policy_versions.specs.Closure.{HasTooMany, declared_contexts};
ghost use Rattle.policy_versions.specs.Founds.{IsInside, is_same_place};
ghost use Rattle.policy_versions.specs.Closing.{contexts_of, AreWhole};
ghost use Rattle.policy_versions.specs.Identifiers.{AreOrdered, AreCounted, AreNumbered};

use crate::closing::close;
use crate::declared::declared_places;
use crate::fill::FillFault;
use crate::found::Found;
use crate::given::GivenRows;
use crate::kinds::Kinds;
use crate::order::{context_of, in_text_order};
use crate::place::Place;
use crate::user_role::UserRoles;
use flask_sid::{InternFault, Memory, SidTable};
use policy_model::PolicyText;
use std::alloc::Global;

/// The contexts to which a policy leads, by identifiers and by numbers: the place of each identifier, and at each place
/// the number of the identifier.
#[derive(Drop)]
pub(crate) struct Contexts {
    pub(crate) sids: SidTable,
    pub(crate) users: UserRoles,
    pub(crate) places: Vec<Place>,
    pub(crate) cells: Vec<u16>,
}

impl Contexts {
    /// The contexts to which a policy leads. `TooMany` exactly where there are more than identifiers.
    pub(crate) fn of(
        alloc: Global,
        policy: &PolicyText,
        kinds: &Kinds,
        given: &GivenRows,
    ) -> Result<Contexts, FillFault>
        requires kinds { AreKindsOf policy.now kinds.now }
        requires given { AreGivenOf policy.now given.now }
        ensures ok { IfOk result (λ contexts. AreNumbered policy.now contexts.users contexts.places.items contexts.sids contexts.cells.items) }
        ensures full { result ≡ Err fill_fault.TooMany → HasTooMany policy.now }
    {
        let mut users = UserRoles::new(alloc);
        let (found, count) = closed(alloc, policy, kinds, given, &mut users)?;
        let places = ordered_places(alloc, policy, &users, found.places(), count)?;
        Ok(numbered(alloc, policy, users, places)?)
    }
}

/// All places to which a policy leads, with those of the declared contexts first, and how many these are. Their users and
/// roles get rows. `TooMany` exactly where there are more places than identifiers.
fn closed(
    alloc: Global,
    policy: &PolicyText,
    kinds: &Kinds,
    given: &GivenRows,
    users: &mut UserRoles,
) -> Result<(Found, usize), FillFault>
    requires kinds { AreKindsOf policy.now kinds.now }
    requires given { AreGivenOf policy.now given.now }
    requires users { length users.old ≡ 0 }
    ensures few { length users.new ≤ 8190 }
    ensures users { IfOk result (λ closed. AreRows users.new) }
    ensures rows { IfOk result (λ closed. closed.0.rows ≡ length users.new) }
    ensures count { IfOk result (λ closed. closed.1 ≤ length closed.0.places) }
    ensures whole { IfOk result (λ closed. AreWhole policy.now users.new closed.0.places) }
    ensures begun { IfOk result (λ closed. contexts_of policy.now users.new (take closed.1 closed.0.places) ≡ declared_contexts policy.now) }
    ensures full { result ≡ Err fill_fault.TooMany → HasTooMany policy.now }
{
    let declared = declared_places(alloc, policy, kinds, users)?;
    let count = declared.len();
    let mut found = Found::of(alloc, users.len() as u16, declared)?;
    close(alloc, policy, given, users, &mut found)?;
    Ok((found, count))
}

/// The contexts of places, numbered in their order.
fn numbered(
    alloc: Global,
    policy: &PolicyText,
    users: UserRoles,
    places: Vec<Place>,
) -> Result<Contexts, Memory>
    requires ordered { AreOrdered policy.now users places.items }
    requires few { length users ≤ 8190 }
    ensures { IfOk result (λ contexts. AreNumbered policy.now contexts.users contexts.places.items contexts.sids contexts.cells.items) }
{
    let sids = sids_of(alloc, policy, &users, places.as_slice())?;
    let cells = cells_of(alloc, users.len() as u16, places.as_slice())?;
    Ok(Contexts {
        sids,
        users,
        places,
        cells,
    })
}

/// The first places as they stand, and the others in byte order of the texts of their contexts.
fn ordered_places(
    alloc: Global,
    policy: &PolicyText,
    users: &UserRoles,
    places: &[Place],
    count: usize,
) -> Result<Vec<Place>, Memory>
    requires few { length places.now ≤ 4095 }
    requires count { count ≤ length places.now }
    requires users { AreRows users.now }
    requires inside { All (IsInside (length users.now)) places.now }
    requires distinct { IsDistinct is_same_place places.now }
    requires whole { AreWhole policy.now users.now places.now }
    requires begun { contexts_of policy.now users.now (take count places.now) ≡ declared_contexts policy.now }
    ensures { IfOk result (λ ordered. AreOrdered policy.now users.now ordered.items) }
{
    let _kept = policy.parts();
    let (declared, derived) = places.split_at(count);
    let derived = in_text_order(alloc, policy, users, derived)?;
    let mut ordered = Vec::from_slice(alloc, declared)?;
    let derived = derived.as_slice();
    ordered.extend_from_slice(derived)?;
    Ok(ordered)
}

/// The table of the contexts of places, in their order.
fn sids_of(
    alloc: Global,
    policy: &PolicyText,
    users: &UserRoles,
    places: &[Place],
) -> Result<SidTable, Memory>
    requires few { length places.now ≤ 4095 }
    requires inside { All (IsInside (length users.now)) places.now }
    requires distinct { AreDistinct (contexts_of policy.now users.now places.now) }
    ensures { IfOk result (λ sids. sids ≡ contexts_of policy.now users.now places.now) }
{
    let mut sids = SidTable::new(alloc);
    'places: for place in places {
        let context = context_of(alloc, policy, users, place)?;
        match sids.intern(context) {
            Ok(_) => {}
            Err(InternFault::Memory) => return Err(Memory),
            Err(InternFault::Full) => unreachable!(),
        }
    }
    Ok(sids)
}

/// The number of each place's identifier, by rows of 128 cells.
fn cells_of(alloc: Global, rows: u16, places: &[Place]) -> Result<Vec<u16>, Memory>
    requires few { length places.now ≤ 4095 }
    requires inside { All (IsInside rows) places.now }
    requires distinct { IsDistinct is_same_place places.now }
    ensures { IfOk result (λ cells. AreCounted places.now cells.items) }
{
    let mut cells = vec![in alloc; 0u16; usize::from(rows) * 128]?;
    'places: for at in 0..places.len() {
        let place = &places[at];
        cells[usize::from(place.row) * 128 + usize::from(place.kind.place())] = at as u16 + 1;
    }
    Ok(cells)
}
