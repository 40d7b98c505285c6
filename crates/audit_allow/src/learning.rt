//! What is learned from denials.

ghost use Rattle.std.specs.Prelude.{◌≡◌, ◌<◌, length, IfOk};
ghost use Rattle.audit_allow.specs.Appending;
ghost use Rattle.audit_allow.specs.Denials.{Lesson};
ghost use Rattle.audit_allow.specs.Grants.{grants};
ghost use Rattle.audit_allow.specs.declared.grant.GrantKind.{GrantKind};

use crate::denials::Denials;
use crate::grant::{GrantKind, Learned};
use access_vectors::Asked;
use flask_sid::{Memory, SidTable};
use policy_model::PolicyText;
use std::alloc::Global;

/// The grants that are learned from questions that were denied under a version of a policy: for each pair of types and each class
/// what was denied, and apart what a `neverallow` line matches. Identifiers are those of the policy's catalogue, and versions are
/// counted from 0.
pub fn learned(
    alloc: Global,
    p: &PolicyText,
    sids: &SidTable,
    ver: u8,
    denied: &[Asked],
) -> Result<Learned, Memory>
    requires { ver < length p.now.versions }
    ensures allow { IfOk result (λ learned. learned.allow ≡ grants GrantKind.Allow (record { policy = p.now; contexts = sids.now; asked = denied.now })) }
    ensures refused { IfOk result (λ learned. learned.refused ≡ grants GrantKind.Refused (record { policy = p.now; contexts = sids.now; asked = denied.now })) }
    ensures teaches { let lesson : Lesson = record { policy = p.now; contexts = sids.now; asked = denied.now } in
        IfOk result (λ learned. Appending.Teaches lesson ver (Appending.appended p.now ver learned.allow)) }
    ensures least { let lesson : Lesson = record { policy = p.now; contexts = sids.now; asked = denied.now } in
        IfOk result (λ learned. Appending.AreLeast lesson ver learned.allow) }
{
    let denials = Denials::of(alloc, p, sids, denied)?;
    Ok(Learned {
        allow: denials.grants(alloc, GrantKind::Allow)?,
        refused: denials.grants(alloc, GrantKind::Refused)?,
    })
}
