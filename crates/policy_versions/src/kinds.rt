//! Which declared types a name in a line means: its type, or the members of its attribute.

ghost use Rattle.std.specs.Prelude.{◌≡◌, ℕ, ◌<◌, ◌≤◌, ◌||◌, false, List, length, IfOk, OnOk, MatchOption};
ghost use Rattle.std.specs.List.{list_any};
ghost use Rattle.std.specs.Str.{bytes_eq};
ghost use Rattle.std.specs.HashMap.{get};
ghost use Rattle.policy_model.specs.declared.policy.PolicyParts.{PolicyParts};
ghost use Rattle.policy_model.specs.declared.policy.KindLine.{KindLine};
ghost use Rattle.policy_model.specs.Declarations.{is_kind};
ghost use Rattle.policy_model.specs.Kept.{IsWholePolicy};
ghost use Rattle.policy_versions.specs.Sets.{has_place};
ghost use Rattle.policy_versions.specs.Places.{name_at};
ghost use Rattle.policy_versions.specs.Kinds.{AreApart, AreKindsOf, AreNamed, ArePlaces, AreSets, IsPlaceOf, IsSetOf, IsSourceSet};

use crate::kind::Kind;
use crate::kind_set::KindSet;
use crate::named_sets::NamedSets;
use flask_sid::{Memory, Name};
use policy_model::{AttributeLine, KindLine, PolicyParts, PolicyText, Who};
use std::alloc::Global;
use std::collections::HashMap;

/// The declared types of a policy by their places, and which of them a name in a line means.
#[derive(Drop)]
pub struct Kinds {
    places: HashMap<Name, Kind>,
    sets: HashMap<Name, KindSet>,
    /// The sets again, found at first sight.
    named: NamedSets,
    every: KindSet,
    none: KindSet,
}

impl Kinds {
    /// The look-ups of a policy's types and attributes.
    pub fn of(alloc: Global, policy: &PolicyText) -> Result<Kinds, Memory>
        ensures { IfOk result (λ kinds. AreKindsOf policy.now kinds) }
    {
        let parts = policy.parts();
        let places = places_of(alloc, parts.kinds.as_slice())?;
        let sets = sets_of(alloc, parts, &places)?;
        let named = named_sets(alloc, parts, &sets)?;
        Ok(Kinds {
            places,
            sets,
            named,
            every: KindSet::every(),
            none: KindSet::none(),
        })
    }

    /// The declared type of a name, or `None` exactly where no type has it.
    pub fn find(&self, name: &Name) -> Option<Kind>
        ensures { (policy : PolicyParts) → AreKindsOf policy self.now
            → MatchOption result (is_kind policy.kinds name.now ≡ false) (IsPlaceOf policy.kinds name.now) }
    {
        self.places.get(name).copied()
    }

    /// The declared types that a line's source matches. As a target, it matches the same, but for `self`.
    pub(crate) fn sources(&self, who: &Who) -> &KindSet
        ensures { (policy : PolicyParts) → AreKindsOf policy self.now → IsSourceSet policy who.now result.now.words }
    {
        match who {
            Who::Named(name) => self.named(name),
            Who::Any => &self.every,
            Who::Itself => &self.none,
        }
    }

    fn named(&self, name: &Name) -> &KindSet
        ensures { (policy : PolicyParts) → AreKindsOf policy self.now → IsSetOf policy name.now result.now.words }
    {
        match self.named.find(name) {
            Some(set) => set,
            None => self.indexed(name),
        }
    }

    // The declared types that a name means, by the index.
    fn indexed(&self, name: &Name) -> &KindSet
        ensures { (policy : PolicyParts) → AreKindsOf policy self.now → IsSetOf policy name.now result.now.words }
    {
        match self.sets.get(name) {
            Some(set) => set,
            None => &self.none,
        }
    }
}

fn places_of(alloc: Global, kinds: &[KindLine]) -> Result<HashMap<Name, Kind>, Memory>
    requires { length kinds.now ≤ 128 }
    ensures { IfOk result (λ places. ArePlaces kinds.now (get bytes_eq places)) }
{
    let mut places = HashMap::new(alloc);
    'kinds: for (place, kind) in kinds.iter().enumerate() {
        places.insert(kind.name.copy(alloc)?, Kind::at(place))?;
    }
    Ok(places)
}

fn sets_of(
    alloc: Global,
    policy: &PolicyParts,
    places: &HashMap<Name, Kind>,
) -> Result<HashMap<Name, KindSet>, Memory>
    requires apart { AreApart policy.now.kinds }
    requires places { ArePlaces policy.now.kinds (get bytes_eq places.now) }
    ensures { IfOk result (λ sets. AreSets policy.now policy.now.kinds policy.now.attributes (get bytes_eq sets)) }
{
    let mut sets = HashMap::new(alloc);
    'kinds: for kind in policy.kinds.as_slice() {
        sets.insert(kind.name.copy(alloc)?, set_of(policy, places, &kind.name))?;
    }
    'attributes: for attribute in policy.attributes.as_slice() {
        sets.insert(
            attribute.name.copy(alloc)?,
            set_of(policy, places, &attribute.name),
        )?;
    }
    Ok(sets)
}

// The sets again, by their names.
fn named_sets(
    alloc: Global,
    policy: &PolicyParts,
    sets: &HashMap<Name, KindSet>,
) -> Result<NamedSets, Memory>
    requires { AreSets policy.now policy.now.kinds policy.now.attributes (get bytes_eq sets.now) }
    ensures { IfOk result (λ named. AreNamed policy.now named) }
{
    let mut named = NamedSets::new(alloc);
    'kinds: for kind in policy.kinds.as_slice() {
        add_set(alloc, &mut named, sets, &kind.name)?;
    }
    'attributes: for attribute in policy.attributes.as_slice() {
        add_set(alloc, &mut named, sets, &attribute.name)?;
    }
    Ok(named)
}

// Adds the set of a name, where there is one.
fn add_set(
    alloc: Global,
    named: &mut NamedSets,
    sets: &HashMap<Name, KindSet>,
    name: &Name,
) -> Result<(), Memory>
    ensures { OnOk result ((policy : PolicyParts) → AreSets policy policy.kinds policy.attributes (get bytes_eq sets.now)
        → AreNamed policy named.old → AreNamed policy named.new) }
{
    match sets.get(name) {
        None => Ok(()),
        Some(set) => {
            named.add(name.copy(alloc)?, *set)?;
            Ok(())
        }
    }
}

// The declared types that a name means.
fn set_of(policy: &PolicyParts, places: &HashMap<Name, Kind>, name: &Name) -> KindSet
    requires apart { AreApart policy.now.kinds }
    requires places { ArePlaces policy.now.kinds (get bytes_eq places.now) }
    ensures { IsSetOf policy.now name.now result.words }
{
    let mut set = own_set(places, name);
    'attributes: for attribute in policy.attributes.as_slice() {
        if attribute.name.as_bytes() == name.as_bytes() {
            add_members(&mut set, places, attribute);
        }
    }
    set
}

// The type of that very name.
fn own_set(places: &HashMap<Name, Kind>, name: &Name) -> KindSet
    ensures { (kinds : List KindLine) → AreApart kinds → ArePlaces kinds (get bytes_eq places.now)
        → (place : ℕ) → place < length kinds → has_place result.words place ≡ bytes_eq name.now (name_at kinds place) }
{
    let mut set = KindSet::none();
    add_named(&mut set, places, name);
    set
}

// Puts the types of an attribute into a set.
fn add_members(set: &mut KindSet, places: &HashMap<Name, Kind>, attribute: &AttributeLine)
    ensures { (kinds : List KindLine) → AreApart kinds → ArePlaces kinds (get bytes_eq places.now)
        → (place : ℕ) → place < length kinds → has_place set.new.words place
        ≡ (has_place set.old.words place || list_any (λ member. bytes_eq member (name_at kinds place)) attribute.now.members) }
{
    'members: for member in attribute.members.as_slice() {
        add_named(set, places, member);
    }
}

// Puts the type of a name into a set, where there is one.
fn add_named(set: &mut KindSet, places: &HashMap<Name, Kind>, name: &Name)
    ensures { (kinds : List KindLine) → AreApart kinds → ArePlaces kinds (get bytes_eq places.now)
        → (place : ℕ) → place < length kinds → has_place set.new.words place
        ≡ (has_place set.old.words place || bytes_eq name.now (name_at kinds place)) }
{
    match places.get(name) {
        Some(kind) => set.add(usize::from(kind.place())),
        None => {}
    }
}
