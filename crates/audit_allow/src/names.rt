//! Types by their places.

ghost use Rattle.std.specs.Prelude.{◌≡◌};
ghost use Rattle.policy_versions.specs.Places.{kind_at};

use policy_model::PolicyParts;

/// The name of the type that is declared at a place, counted from 0; where there is none it is empty.
pub fn type_name(policy: &PolicyParts, place: u8) -> &[u8]
    ensures { result.now ≡ kind_at policy.now place }
{
    match policy.kinds.get(usize::from(place)) {
        None => &[],
        Some(line) => line.name.as_bytes(),
    }
}
