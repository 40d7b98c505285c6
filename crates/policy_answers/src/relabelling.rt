//! Where two versions of a policy give different types, to new objects or as members.

ghost use Rattle.std.specs.Prelude.{◌≡◌, ◌<◌, ◌++◌, length, IfOk, OnOk};
ghost use Rattle.policy_versions.specs.Given.{AreGivenOf};
ghost use Rattle.policy_answers.specs.Relabels;

use crate::deciding::labelling_line;
use crate::differing::{Places, Versions, type_at};
use crate::holding::kind_count;
use access_vectors::Class;
use audit_allow::type_name;
use flask_sid::{Memory, Rows};
use policy_model::{Labelling, PolicyText};
use policy_versions::{GivenRows, Kind, Kinds};
use std::alloc::Global;

/// The types at two places, counted from 0 in the order of declaration, and a class, for which two versions give different types by
/// `transition` or by `member` lines: the number of the line by which each gives one, if it does.
#[derive(Clone, Copy)]
pub struct Relabel {
    pub s: u8,
    pub t: u8,
    pub class: Class,
    pub labelling: Labelling,
    pub before: Option<u32>,
    pub after: Option<u32>,
}

/// The types and classes for which two versions give different types: by source and target in the order of declaration, then by
/// class code, the types of new objects first. Versions are counted from 0, and one that is not there gives none.
#[tactic(auto, unfolding(crate::specs::Relabels::relabels))]
pub fn relabels(
    alloc: Global,
    policy: &PolicyText,
    before: u8,
    after: u8,
) -> Result<Rows<Relabel>, Memory>
    ensures { IfOk result (λ found. found ≡ Relabels.relabels policy.now before after) }
{
    let versions = Versions { before, after };
    let kinds = Kinds::of(alloc, policy)?;
    let given = GivenRows::compile(alloc, policy, &kinds)?;
    let mut found = Rows::new(alloc);
    'sources: for s in 0..kind_count(policy) {
        put_from(policy, &given, versions, s, &mut found)?;
    }
    Ok(found)
}

/// Puts what is given differently for a source's type.
fn put_from(
    policy: &PolicyText,
    given: &GivenRows,
    versions: Versions,
    s: u8,
    found: &mut Rows<Relabel>,
) -> Result<(), Memory>
    requires given { AreGivenOf policy.now given.now }
    requires source { s < length policy.now.kinds }
    ensures { OnOk result (found.new ≡ found.old ++ Relabels.relabels_from policy.now versions.before versions.after s) }
{
    'targets: for t in 0..kind_count(policy) {
        put_between(policy, given, versions, Places { s, t }, found)?;
    }
    Ok(())
}

/// Puts what is given differently between two types.
fn put_between(
    policy: &PolicyText,
    given: &GivenRows,
    versions: Versions,
    places: Places,
    found: &mut Rows<Relabel>,
) -> Result<(), Memory>
    requires given { AreGivenOf policy.now given.now }
    requires source { places.s < length policy.now.kinds }
    requires target { places.t < length policy.now.kinds }
    ensures { OnOk result (found.new ≡ found.old ++ Relabels.relabels_between policy.now versions.before versions.after places.s places.t) }
{
    let all: &[Class] = &Class::ALL;
    'classes: for class in all {
        put_in(policy, given, versions, places, *class, found)?;
    }
    Ok(())
}

/// Puts what is given differently in a class.
fn put_in(
    policy: &PolicyText,
    given: &GivenRows,
    versions: Versions,
    places: Places,
    class: Class,
    found: &mut Rows<Relabel>,
) -> Result<(), Memory>
    requires given { AreGivenOf policy.now given.now }
    requires source { places.s < length policy.now.kinds }
    requires target { places.t < length policy.now.kinds }
    ensures { OnOk result (found.new ≡ found.old ++ Relabels.relabels_in policy.now versions.before versions.after places.s places.t class) }
{
    if !gives_same(
        policy,
        given,
        versions,
        places,
        class,
        Labelling::Transition,
    ) {
        found.push(relabel_on(policy, versions, places, class, Labelling::Transition))?;
    }
    if !gives_same(policy, given, versions, places, class, Labelling::Member) {
        found.push(relabel_on(policy, versions, places, class, Labelling::Member))?;
    }
    Ok(())
}

/// Whether two versions give the same type, or both none.
fn gives_same(
    policy: &PolicyText,
    given: &GivenRows,
    versions: Versions,
    places: Places,
    class: Class,
    labelling: Labelling,
) -> bool
    requires given { AreGivenOf policy.now given.now }
    requires source { places.s < length policy.now.kinds }
    requires target { places.t < length policy.now.kinds }
    ensures { result ≡ Relabels.gives_same policy.now versions.before versions.after places.s places.t class labelling }
{
    let _few = kind_count(policy);
    let (s, t) = (type_at(places.s), type_at(places.t));
    let before = given.given(labelling, versions.before, s, t, class);
    let after = given.given(labelling, versions.after, s, t, class);
    is_same_place(before, after)
}

/// Whether two places are the same, or both none.
fn is_same_place(before: Option<Kind>, after: Option<Kind>) -> bool
    ensures { result ≡ Relabels.is_same_place before after }
{
    match (before, after) {
        (None, None) => true,
        (Some(kind), Some(other)) => kind.place() == other.place(),
        _ => false,
    }
}

/// The lines by which two versions give a type.
fn relabel_on(
    policy: &PolicyText,
    versions: Versions,
    places: Places,
    class: Class,
    labelling: Labelling,
) -> Relabel
    ensures { result ≡ Relabels.relabel_on policy.now versions.before versions.after places.s places.t class labelling }
{
    let parts = policy.parts();
    let (s, t) = (type_name(parts, places.s), type_name(parts, places.t));
    Relabel {
        s: places.s,
        t: places.t,
        class,
        labelling,
        before: labelling_line(parts, labelling, versions.before, s, t, class),
        after: labelling_line(parts, labelling, versions.after, s, t, class),
    }
}
