//! What a line of a policy does to a cell of a table.

ghost use Rattle.std.specs.Prelude.{◌≡◌, true};
ghost use Rattle.policy_model.specs.declared.policy.PolicyParts.{PolicyParts};
ghost use Rattle.policy_model.specs.Declarations.{is_kind};
ghost use Rattle.policy_versions.specs.Kinds.{AreKindsOf};
ghost use Rattle.policy_versions.specs.Changes.{GivesDeclared, PutsKind, IsChangeOf};

use crate::kinds::Kinds;
use flask_sid::Name;
use policy_model::{Labelling, Verdict};

/// What the cells of a table tell.
#[derive(Clone, Copy, Debug, PartialEq, Eq)]
pub(crate) enum Content {
    /// The vector, as its bits.
    Vectors,
    /// The type that a line of a kind gives: 0 for none, or one more than the type's place.
    Given(Labelling),
}

/// What a line does to a cell that it matches.
#[derive(Clone, Copy, Debug, PartialEq, Eq)]
pub(crate) struct Change {
    /// The bits that stay.
    pub(crate) keep: u16,
    /// The bits that are put in then.
    pub(crate) put: u16,
}

/// What a verdict changes in a table of this content, or `None` where it says nothing there.
pub(crate) fn change_of(kinds: &Kinds, content: Content, verdict: &Verdict) -> Option<Change>
    ensures { (policy : PolicyParts) → AreKindsOf policy kinds.now → GivesDeclared policy verdict.now
        → IsChangeOf content policy verdict.now result }
{
    match (content, verdict) {
        (Content::Vectors, Verdict::Allow(perms)) => Some(Change {
            keep: !perms.bits(),
            put: perms.bits(),
        }),
        (Content::Vectors, Verdict::Withhold(perms)) => Some(Change {
            keep: !perms.bits(),
            put: 0,
        }),
        (Content::Given(Labelling::Transition), Verdict::Transition(name)) => {
            put_of(kinds, name)
        }
        (Content::Given(Labelling::Member), Verdict::Member(name)) => put_of(kinds, name),
        _ => None,
    }
}

fn put_of(kinds: &Kinds, name: &Name) -> Option<Change>
    ensures { (policy : PolicyParts) → AreKindsOf policy kinds.now → is_kind policy.kinds name.now ≡ true
        → PutsKind policy name.now result }
{
    let kind = kinds.find(name)?;
    Some(Change {
        keep: 0,
        put: u16::from(kind.place()) + 1,
    })
}
