//! The first `neverallow` line that a version breaks.

ghost use Rattle.std.specs.Prelude.{◌≡◌, ℕ, ◌<◌, ◌≤◌, true, length};
ghost use Rattle.access_vectors.specs.Table.{perm_count};
ghost use Rattle.policy_model.specs.declared.policy.PolicyParts.{PolicyParts};
ghost use Rattle.policy_model.specs.Matching.{matches_source, matches_target};
ghost use Rattle.policy_versions.specs.Places.{kind_at};
ghost use Rattle.policy_versions.specs.Kinds.{AreKindsOf};
ghost use Rattle.policy_versions.specs.Vectors.{AreVectorsOf};
ghost use Rattle.policy_versions.specs.Nevers;
ghost use Rattle.policy_versions.specs.Nevers.{AreTargets};

use crate::broken::Break;
use crate::kind::Kind;
use crate::kind_set::KindSet;
use crate::kinds::Kinds;
use crate::vectors::VectorRows;
use access_vectors::{Class, Perm, Vector};
use policy_model::{Pattern, PolicyParts, PolicyText, Who};

/// How a policy's versions break a `neverallow` line first, by version, then line, source, target and permission. `None`
/// exactly where no version breaks one.
pub fn first_break(policy: &PolicyText, kinds: &Kinds, vectors: &VectorRows) -> Option<Break>
    requires kinds { AreKindsOf policy.now kinds.now }
    requires vectors { AreVectorsOf policy.now vectors.now }
    ensures { result ≡ Nevers.first_break policy.now }
{
    let parts = policy.parts();
    'versions: for version in 0..parts.versions.len() {
        if let Some(found) = break_in(parts, kinds, vectors, version as u8) {
            return Some(found);
        }
    }
    None
}

// How a version breaks the first of the lines that it breaks.
fn break_in(policy: &PolicyParts, kinds: &Kinds, vectors: &VectorRows, version: u8) -> Option<Break>
    requires kinds { AreKindsOf policy.now kinds.now }
    requires vectors { AreVectorsOf policy.now vectors.now }
    ensures { result ≡ Nevers.break_in policy.now version }
{
    'lines: for pattern in policy.nevers.as_slice() {
        if let Some(found) = break_of(policy, kinds, vectors, version, pattern) {
            return Some(found);
        }
    }
    None
}

// How a version breaks a line first.
fn break_of(
    policy: &PolicyParts,
    kinds: &Kinds,
    vectors: &VectorRows,
    version: u8,
    pattern: &Pattern,
) -> Option<Break>
    requires kinds { AreKindsOf policy.now kinds.now }
    requires vectors { AreVectorsOf policy.now vectors.now }
    ensures { result ≡ Nevers.break_of policy.now version pattern.now }
{
    let sources = kinds.sources(&pattern.source);
    'sources: for place in 0..policy.kinds.len() {
        let s = Kind::at(place);
        if sources.has(s) {
            if let Some(found) = break_from(policy, kinds, vectors, version, pattern, s) {
                return Some(found);
            }
        }
    }
    None
}

// How a version breaks a line first for a source that the line matches.
fn break_from(
    policy: &PolicyParts,
    kinds: &Kinds,
    vectors: &VectorRows,
    version: u8,
    pattern: &Pattern,
    s: Kind,
) -> Option<Break>
    requires kinds { AreKindsOf policy.now kinds.now }
    requires vectors { AreVectorsOf policy.now vectors.now }
    requires source { s < length policy.now.kinds }
    requires matched { matches_source policy.now.attributes pattern.now.source (kind_at policy.now s) ≡ true }
    ensures { result ≡ Nevers.break_from policy.now version pattern.now s }
{
    match &pattern.target {
        Who::Itself => break_at(vectors, version, pattern, s, s),
        _ => {
            let targets = kinds.sources(&pattern.target);
            if vectors.meets(version, s, targets, pattern.class, pattern.perms) {
                break_among(policy, targets, vectors, version, pattern, s)
            } else {
                None
            }
        }
    }
}

// How a version breaks a line, whose target is not `self`, first for a source that the line matches.
fn break_among(
    policy: &PolicyParts,
    targets: &KindSet,
    vectors: &VectorRows,
    version: u8,
    pattern: &Pattern,
    s: Kind,
) -> Option<Break>
    requires few { length policy.now.kinds ≤ 128 }
    requires vectors { AreVectorsOf policy.now vectors.now }
    requires targets { AreTargets policy.now pattern.now.target targets.now.words }
    requires source { s < length policy.now.kinds }
    requires matched { matches_source policy.now.attributes pattern.now.source (kind_at policy.now s) ≡ true }
    ensures { result ≡ Nevers.break_from policy.now version pattern.now s }
{
    'targets: for place in 0..policy.kinds.len() {
        let t = Kind::at(place);
        if targets.has(t) {
            if let Some(found) = break_at(vectors, version, pattern, s, t) {
                return Some(found);
            }
        }
    }
    None
}

// How a version breaks a line first for a source and a target that the line matches.
fn break_at(vectors: &VectorRows, version: u8, pattern: &Pattern, s: Kind, t: Kind) -> Option<Break>
    ensures { (policy : PolicyParts) → AreVectorsOf policy vectors.now → s < length policy.kinds → t < length policy.kinds
        → matches_source policy.attributes pattern.now.source (kind_at policy s) ≡ true
        → matches_target policy.attributes pattern.now.target (kind_at policy s) (kind_at policy t) ≡ true
        → result ≡ Nevers.break_at policy version pattern.now s t }
{
    let allowed = vectors.cell(version, s, t, pattern.class);
    let perm = first_common(pattern.class, pattern.perms, allowed)?;
    Some(Break {
        version,
        line: pattern.line,
        s,
        t,
        perm,
    })
}

// The first permission of a class that is forbidden and allowed.
fn first_common(class: Class, forbidden: Vector, allowed: Vector) -> Option<Perm>
    ensures { result ≡ Nevers.first_below (perm_count class) (Nevers.common class forbidden allowed) }
{
    'indexes: for index in 0..class.perm_count() {
        if forbidden.has(index) && allowed.has(index) {
            return Perm::of(class, index);
        }
    }
    None
}
