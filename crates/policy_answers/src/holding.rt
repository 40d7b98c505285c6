//! Who has a permission, and under which versions.

ghost use Rattle.std.specs.Prelude.{◌≡◌, ◌≤◌, [], ◌∷◌, ◌++◌, length, IfOk, OnOk, if◌then◌else◌};
ghost use Rattle.policy_model.specs.Kept.{IsWholePolicy};
ghost use Rattle.policy_versions.specs.Places.{kind_at};
ghost use Rattle.policy_answers.specs.Holders;

use crate::deciding::deciding_line;
use access_vectors::Perm;
use audit_allow::type_name;
use flask_sid::{Memory, Rows};
use policy_model::PolicyText;
use std::alloc::Global;

/// A declared type, by its place in the order of declaration, counted from 0, that has a permission, and the number of the line
/// by which it has it.
#[derive(Clone, Copy)]
pub struct Holder {
    pub s: u8,
    pub line: Option<u32>,
}

/// The declared types that a version allows a permission on targets of type `t`, in the order of declaration. Versions are
/// counted from 0, and one that is not there allows nothing.
#[tactic(auto, unfolding(crate::specs::Holders::holders))]
pub fn holders(
    alloc: Global,
    policy: &PolicyText,
    version: u8,
    t: &[u8],
    perm: Perm,
) -> Result<Rows<Holder>, Memory>
    ensures { IfOk result (λ found. found ≡ Holders.holders policy.now version t.now perm) }
{
    let mut found = Rows::new(alloc);
    'types: for s in 0..kind_count(policy) {
        put_holder(policy, version, s, t, perm, &mut found)?;
    }
    Ok(found)
}

/// Puts the type at a place, where it has the permission.
fn put_holder(
    policy: &PolicyText,
    version: u8,
    s: u8,
    t: &[u8],
    perm: Perm,
    found: &mut Rows<Holder>,
) -> Result<(), Memory>
    ensures { OnOk result (found.new ≡ found.old ++ Holders.holder_at policy.now version t.now perm s) }
{
    let parts = policy.parts();
    let name = type_name(parts, s);
    if !allows(policy, version, name, t, perm) {
        return Ok(());
    }
    let line = deciding_line(parts, version, name, t, perm);
    found.push(Holder { s, line })
}

/// The versions, counted from 0, that allow sources of type `s` a permission on targets of type `t`, in their order.
#[tactic(auto, unfolding(crate::specs::Holders::allowing_versions))]
pub fn allowing_versions(
    alloc: Global,
    policy: &PolicyText,
    s: &[u8],
    t: &[u8],
    perm: Perm,
) -> Result<Rows<u8>, Memory>
    ensures { IfOk result (λ versions. versions ≡ Holders.allowing_versions policy.now s.now t.now perm) }
{
    let mut versions = Rows::new(alloc);
    'versions: for version in 0..version_count(policy) {
        let yes = allows(policy, version, s, t, perm);
        push_if(&mut versions, yes, version)?;
    }
    Ok(versions)
}

/// Whether a version allows sources of type `s` a permission on targets of type `t`.
#[tactic(auto, unfolding(crate::specs::Holders::allows))]
fn allows(policy: &PolicyText, version: u8, s: &[u8], t: &[u8], perm: Perm) -> bool
    ensures { result ≡ Holders.allows policy.now version s.now t.now perm }
{
    policy
        .parts()
        .vector_of(version, s, t, perm.class())
        .has(perm.index())
}

/// Adds a number where the answer is yes.
fn push_if(numbers: &mut Rows<u8>, yes: bool, number: u8) -> Result<(), Memory>
    ensures { OnOk result (numbers.new ≡ (if yes then numbers.old ++ number ∷ [] else numbers.old)) }
{
    if yes {
        numbers.push(number)?;
    }
    Ok(())
}

/// How many types are declared: at most 128.
pub(crate) fn kind_count(policy: &PolicyText) -> u8
    ensures count { result ≡ length policy.now.kinds }
    ensures few { length policy.now.kinds ≤ 128 }
    ensures kept { IsWholePolicy policy.now }
{
    policy.parts().kinds.len() as u8
}

/// How many versions there are: at most 64.
fn version_count(policy: &PolicyText) -> u8
    ensures { result ≡ length policy.now.versions }
{
    policy.parts().versions.len() as u8
}
