//! Which permissions two versions decide differently.

ghost use Rattle.std.specs.Prelude.{◌≡◌, ◌<◌, ◌++◌, IfOk, OnOk};
ghost use Rattle.access_vectors.specs.Table.{perm_count};
ghost use Rattle.policy_answers.specs.Changes;

use crate::deciding::{Decision, decision_on, perm_at};
use crate::differing::{Difference, Versions, differences};
use access_vectors::Perm;
use audit_allow::type_name;
use flask_sid::{Memory, Rows};
use policy_model::PolicyText;
use std::alloc::Global;

/// A permission that one of two versions gives to the type at place `s` on the type at place `t`, counted from 0 in the order of
/// declaration, and the other does not: what both decide, and by which lines.
#[derive(Clone, Copy)]
pub struct Change {
    pub s: u8,
    pub t: u8,
    pub before: Decision,
    pub after: Decision,
}

/// The permissions that two versions decide differently: by source and target in the order of declaration, then by class code and
/// permission. Versions are counted from 0, and one that is not there allows nothing.
#[tactic(auto, unfolding(crate::specs::Changes::changes))]
pub fn changes(
    alloc: Global,
    policy: &PolicyText,
    before: u8,
    after: u8,
) -> Result<Rows<Change>, Memory>
    ensures { IfOk result (λ found. found ≡ Changes.changes policy.now before after) }
{
    let versions = Versions { before, after };
    let differing = differences(alloc, policy, before, after)?;
    let all = differing.as_slice();
    let mut found = Rows::new(alloc);
    'differences: for difference in all {
        put_changes(policy, versions, difference, &mut found)?;
    }
    Ok(found)
}

/// Puts the permissions in which two vectors differ.
fn put_changes(
    policy: &PolicyText,
    versions: Versions,
    difference: &Difference,
    found: &mut Rows<Change>,
) -> Result<(), Memory>
    ensures { OnOk result (found.new ≡ found.old ++ Changes.changes_of policy.now versions.before versions.after difference.now) }
{
    'indexes: for index in 0..difference.class.perm_count() {
        put_change(policy, versions, difference, index, found)?;
    }
    Ok(())
}

/// Puts the permission at an index, where two vectors differ there.
fn put_change(
    policy: &PolicyText,
    versions: Versions,
    difference: &Difference,
    index: u8,
    found: &mut Rows<Change>,
) -> Result<(), Memory>
    requires { index < perm_count difference.now.class }
    ensures { OnOk result (found.new ≡ found.old ++ Changes.change_at policy.now versions.before versions.after difference.now index) }
{
    if !is_changed(difference.before.has(index), difference.after.has(index)) {
        return Ok(());
    }
    let perm = perm_at(difference.class, index);
    found.push(change_on(policy, versions, difference, perm))
}

fn is_changed(before: bool, after: bool) -> bool
    ensures { result ≡ Changes.is_changed before after }
{
    if before { !after } else { after }
}

/// What two versions decide on a permission.
fn change_on(policy: &PolicyText, versions: Versions, difference: &Difference, perm: Perm) -> Change
    ensures { result ≡ Changes.change_on policy.now versions.before versions.after difference.now.s difference.now.t perm }
{
    let parts = policy.parts();
    let (s, t) = (
        type_name(parts, difference.s),
        type_name(parts, difference.t),
    );
    Change {
        s: difference.s,
        t: difference.t,
        before: decision_on(policy, versions.before, s, t, perm),
        after: decision_on(policy, versions.after, s, t, perm),
    }
}
