//! Between which types the vectors of two versions differ.

ghost use Rattle.std.specs.Prelude.{◌≡◌, ◌==◌, ◌<◌, [], ◌∷◌, ◌++◌, length, IfOk, OnOk, if◌then◌else◌};
ghost use Rattle.policy_versions.specs.Vectors.{AreVectorsOf};
ghost use Rattle.policy_answers.specs.Differences;

use crate::holding::kind_count;
use access_vectors::{Class, Vector};
use flask_sid::{Memory, Rows};
use policy_model::PolicyText;
use policy_versions::{Kind, Kinds, VectorRows};
use std::alloc::Global;

/// The two versions that are compared, counted from 0.
#[derive(Clone, Copy)]
pub(crate) struct Versions {
    pub(crate) before: u8,
    pub(crate) after: u8,
}

/// The places of a source's and a target's type, counted from 0 in the order of declaration.
#[derive(Clone, Copy)]
pub(crate) struct Places {
    pub(crate) s: u8,
    pub(crate) t: u8,
}

/// What two versions decide for the types at two places, counted from 0 in the order of declaration, and a class.
#[derive(Clone, Copy)]
pub struct Difference {
    pub s: u8,
    pub t: u8,
    pub class: Class,
    pub before: Vector,
    pub after: Vector,
}

/// The types and classes whose vectors differ between two versions: by source and target in the order of declaration, then by
/// class code. Versions are counted from 0, and one that is not there allows nothing.
#[tactic(auto, unfolding(crate::specs::Differences::differences))]
pub fn differences(
    alloc: Global,
    policy: &PolicyText,
    before: u8,
    after: u8,
) -> Result<Rows<Difference>, Memory>
    ensures { IfOk result (λ found. found ≡ Differences.differences policy.now before after) }
{
    let versions = Versions { before, after };
    let kinds = Kinds::of(alloc, policy)?;
    let vectors = VectorRows::compile(alloc, policy, &kinds)?;
    let mut found = Rows::new(alloc);
    'sources: for s in 0..kind_count(policy) {
        put_from(policy, &vectors, versions, s, &mut found)?;
    }
    Ok(found)
}

/// Puts the differences for a source's type.
fn put_from(
    policy: &PolicyText,
    vectors: &VectorRows,
    versions: Versions,
    s: u8,
    found: &mut Rows<Difference>,
) -> Result<(), Memory>
    requires vectors { AreVectorsOf policy.now vectors.now }
    requires source { s < length policy.now.kinds }
    ensures { OnOk result (found.new ≡ found.old ++ Differences.differences_from policy.now versions.before versions.after s) }
{
    'targets: for t in 0..kind_count(policy) {
        put_between(policy, vectors, versions, Places { s, t }, found)?;
    }
    Ok(())
}

/// Puts the differences between two types.
fn put_between(
    policy: &PolicyText,
    vectors: &VectorRows,
    versions: Versions,
    places: Places,
    found: &mut Rows<Difference>,
) -> Result<(), Memory>
    requires vectors { AreVectorsOf policy.now vectors.now }
    requires source { places.s < length policy.now.kinds }
    requires target { places.t < length policy.now.kinds }
    ensures { OnOk result (found.new ≡ found.old ++ Differences.differences_between policy.now versions.before versions.after places.s places.t) }
{
    let all: &[Class] = &Class::ALL;
    'classes: for class in all {
        let class = *class;
        let before = vector_between(policy, vectors, versions.before, places, class);
        let after = vector_between(policy, vectors, versions.after, places, class);
        put_difference(found, places, class, before, after)?;
    }
    Ok(())
}

/// Puts two vectors of a class between two types, where they are not the same.
fn put_difference(
    found: &mut Rows<Difference>,
    places: Places,
    class: Class,
    before: Vector,
    after: Vector,
) -> Result<(), Memory>
    ensures { OnOk result (found.new ≡ (if before == after then found.old
        else found.old ++ record { s = places.s; t = places.t; class = class; before = before; after = after } ∷ [])) }
{
    if before == after {
        return Ok(());
    }
    found.push(Difference {
        s: places.s,
        t: places.t,
        class,
        before,
        after,
    })
}

/// The vector that a version decides for the types at two places.
fn vector_between(
    policy: &PolicyText,
    vectors: &VectorRows,
    version: u8,
    places: Places,
    class: Class,
) -> Vector
    requires vectors { AreVectorsOf policy.now vectors.now }
    requires source { places.s < length policy.now.kinds }
    requires target { places.t < length policy.now.kinds }
    ensures { result ≡ Differences.vector_between policy.now version places.s places.t class }
{
    let _few = kind_count(policy);
    vectors.cell(version, type_at(places.s), type_at(places.t), class)
}

/// The type at a place.
pub(crate) fn type_at(place: u8) -> Kind
    requires { place < 128 }
    ensures { result ≡ place }
{
    match Kind::of(usize::from(place)) {
        Some(found) => found,
        None => unreachable!(),
    }
}
