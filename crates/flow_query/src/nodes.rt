//! Which types are nodes: those that some context of a catalogue has.

ghost use Rattle.std.specs.Prelude.{◌≡◌, ◌+◌, ◌<◌, Some, length, slice_get};
ghost use Rattle.policy_versions.specs.Compiling.{IsCatalogueOf, sids_of, kind_of};
ghost use Rattle.flow_query.specs.Hops;
ghost use Rattle.flow_query.specs.Reaches.{AreMarks};

use flask_sid::{Context, Sid, SidTable};
use policy_model::PolicyText;
use policy_versions::{Catalogue, Kind as Type};

/// Whether the declared type at a place is one of the contexts' types.
#[tactic(auto, unfolding(crate::specs::Hops::is_node))]
pub fn is_node(policy: &PolicyText, sids: &SidTable, place: usize) -> bool
    ensures { result ≡ Hops.is_node policy.now sids.now place }
{
    match policy.parts().kinds.get(place) {
        None => false,
        Some(kind) => has_type(sids, kind.name.as_bytes()),
    }
}

// Whether some context has the type of that name.
fn has_type(sids: &SidTable, name: &[u8]) -> bool
    ensures { result ≡ Hops.has_type sids.now name.now }
{
    'contexts: for place in 0..sids.len() {
        if context_at(sids, place).kind.as_bytes() == name {
            return true;
        }
    }
    false
}

// The context at a place, counted from 0.
fn context_at(sids: &SidTable, place: usize) -> &Context
    requires { place < length sids.now }
    ensures { slice_get sids.now place ≡ Some result.now }
{
    let _few = sids.len();
    let Some(sid) = Sid::of(place as u16 + 1) else {
        unreachable!()
    };
    match sids.context(sid) {
        Some(context) => context,
        None => unreachable!(),
    }
}

/// Marks the types of a catalogue's contexts at their places, by one pass over the contexts.
pub(crate) fn marks_of(policy: &PolicyText, catalogue: &Catalogue) -> [u16; 128]
    requires { IsCatalogueOf policy.now catalogue.now }
    ensures { AreMarks policy.now (sids_of catalogue.now) result }
{
    let _kept = policy.parts();
    let mut marks = [0u16; 128];
    'contexts: for place in 0..catalogue.sids().len() {
        let kind = kind_at(catalogue, place);
        marks[usize::from(kind.place())] = u16::MAX;
    }
    marks
}

// The type of the context at a place, counted from 0.
fn kind_at(catalogue: &Catalogue, place: usize) -> Type
    requires { place < length (sids_of catalogue.now) }
    ensures { result ≡ kind_of catalogue.now (place + 1) }
{
    let _few = catalogue.sids().len();
    let Some(sid) = Sid::of(place as u16 + 1) else {
        unreachable!()
    };
    catalogue.kind(sid)
}
