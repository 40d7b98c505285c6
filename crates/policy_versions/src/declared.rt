//! The declared contexts by the numbers of their rows and types.

ghost use Rattle.std.specs.Prelude.{◌≡◌, ◌≤◌, length, IfOk};
ghost use Rattle.std.specs.List.{All, IsDistinct};
ghost use Rattle.policy_versions.specs.Closure.{declared_contexts};
ghost use Rattle.policy_versions.specs.Kinds.{AreKindsOf};
ghost use Rattle.policy_versions.specs.Founds.{is_same_place, IsInside};
ghost use Rattle.policy_versions.specs.Closing.{contexts_of};

use crate::kinds::Kinds;
use crate::names::declared_kind;
use crate::place::Place;
use crate::user_role::UserRoles;
use flask_sid::Memory;
use policy_model::PolicyText;
use std::alloc::Global;

/// The declared contexts by numbers, in their order. Their users and roles get rows.
pub(crate) fn declared_places(
    alloc: Global,
    policy: &PolicyText,
    kinds: &Kinds,
    users: &mut UserRoles,
) -> Result<Vec<Place>, Memory>
    requires kinds { AreKindsOf policy.now kinds.now }
    requires users { length users.old ≡ 0 }
    ensures few { length users.new ≤ 8190 }
    ensures contexts { IfOk result (λ places. contexts_of policy.now users.new places.items ≡ declared_contexts policy.now) }
    ensures few_places { IfOk result (λ places. length places.items ≤ 4095) }
    ensures distinct { IfOk result (λ places. IsDistinct is_same_place places.items) }
    ensures inside { IfOk result (λ places. All (IsInside (length users.new)) places.items) }
{
    let mut places = Vec::new(alloc);
    'lines: for line in policy.parts().contexts.as_slice() {
        let row = users.row(alloc, &line.context)?;
        let kind = declared_kind(policy, kinds, &line.context.kind);
        places.push(Place { row, kind })?;
    }
    Ok(places)
}
