//! Contexts in byte order of their texts.

ghost use Rattle.std.specs.Prelude.{◌≡◌, ◌<◌, ◌≤◌, length, map, IfOk};
ghost use Rattle.std.specs.List.{All};
ghost use Rattle.std.specs.List.Sorted.{IsPermutation};
ghost use Rattle.flask_sid.specs.Contexts.{context_text};
ghost use Rattle.policy_versions.specs.Numbers.{context_at};
ghost use Rattle.policy_versions.specs.Founds.{IsInside};
ghost use Rattle.policy_versions.specs.Orders.{place_at, IsTexted, AreInTextOrder};

use crate::names::name_of;
use crate::place::Place;
use crate::user_role::UserRoles;
use flask_sid::{Context, ContextOf, Memory, Name, Word};
use policy_model::PolicyText;
use std::alloc::Global;

/// The text of a context, and the position of its place in a list.
#[derive(Debug, PartialEq, Eq, PartialOrd, Ord, Drop)]
pub(crate) struct Texted {
    text: Vec<u8>,
    at: u16,
}

/// The places in byte order of the texts of their contexts.
pub(crate) fn in_text_order(
    alloc: Global,
    policy: &PolicyText,
    users: &UserRoles,
    places: &[Place],
) -> Result<Vec<Place>, Memory>
    requires few { length places.now ≤ 4095 }
    requires inside { All (IsInside (length users.now)) places.now }
    ensures moved { IfOk result (λ sorted. IsPermutation places.now sorted.items) }
    ensures ordered { IfOk result (λ sorted. AreInTextOrder policy.now users.now sorted.items) }
{
    let mut texted = texted_places(alloc, policy, users, places)?;
    texted.sort()?;
    let sorted = places_of(alloc, texted.as_slice(), places)?;
    Ok(sorted)
}

fn texted_places(
    alloc: Global,
    policy: &PolicyText,
    users: &UserRoles,
    places: &[Place],
) -> Result<Vec<Texted>, Memory>
    requires few { length places.now ≤ 4095 }
    requires inside { All (IsInside (length users.now)) places.now }
    ensures places { IfOk result (λ texted. map (λ one. place_at places.now one.at) texted.items ≡ places.now) }
    ensures texts { IfOk result (λ texted. All (IsTexted policy.now users.now places.now) texted.items) }
{
    let mut texted = Vec::new(alloc);
    'places: for at in 0..places.len() {
        let text = text_at(alloc, policy, users, &places[at])?;
        texted.push(Texted {
            text,
            at: at as u16,
        })?;
    }
    Ok(texted)
}

fn places_of(alloc: Global, texted: &[Texted], places: &[Place]) -> Result<Vec<Place>, Memory>
    requires { All (λ one. one.at < length places.now) texted.now }
    ensures { IfOk result (λ found. found.items ≡ map (λ one. place_at places.now one.at) texted.now) }
{
    let mut found = Vec::new(alloc);
    'texts: for one in texted {
        found.push(places[usize::from(one.at)])?;
    }
    Ok(found)
}

/// The context of a place.
#[tactic(auto, unfolding(crate::specs::Numbers::context_at))]
pub(crate) fn context_of(
    alloc: Global,
    policy: &PolicyText,
    users: &UserRoles,
    place: &Place,
) -> Result<Context, Memory>
    requires { place.now.row < length users.now }
    ensures { IfOk result (λ context. context ≡ context_at policy.now users.now place.now.row place.now.kind) }
{
    let holder = users.at(place.row);
    let kind = name_of(policy.parts().kinds.as_slice(), place.kind);
    Ok(ContextOf {
        user: holder.user.copy(alloc)?,
        role: holder.role.copy(alloc)?,
        kind: Name::of(alloc, &Word::new(kind))?,
    })
}

/// The text of the context of a place.
fn text_at(
    alloc: Global,
    policy: &PolicyText,
    users: &UserRoles,
    place: &Place,
) -> Result<Vec<u8>, Memory>
    requires { place.now.row < length users.now }
    ensures { IfOk result (λ text. text.items ≡ context_text (context_at policy.now users.now place.now.row place.now.kind)) }
{
    let context = context_of(alloc, policy, users, place)?;
    text_of(alloc, &context)
}

/// The text of a context.
#[tactic(auto, unfolding(flask_sid::specs::Contexts::context_text))]
fn text_of(alloc: Global, context: &Context) -> Result<Vec<u8>, Memory>
    ensures { IfOk result (λ text. text.items ≡ context_text context.now) }
{
    let mut text = Vec::new(alloc);
    text.extend_from_slice(context.user.as_bytes())?;
    text.extend_from_slice(b":")?;
    text.extend_from_slice(context.role.as_bytes())?;
    text.extend_from_slice(b":")?;
    text.extend_from_slice(context.kind.as_bytes())?;
    Ok(text)
}
