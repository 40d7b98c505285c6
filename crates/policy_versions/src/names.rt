//! Names of types and their places.

ghost use Rattle.std.specs.Prelude.{◌≡◌, ◌<◌, true};
ghost use Rattle.policy_model.specs.Declarations.{is_kind};
ghost use Rattle.policy_versions.specs.Places.{name_at, kind_at};
ghost use Rattle.policy_versions.specs.Kinds.{AreKindsOf};

use crate::kind::Kind;
use crate::kinds::Kinds;
use flask_sid::Name;
use policy_model::{KindLine, PolicyText};

/// The name of the type at a place of a list.
pub(crate) fn name_of(kinds: &[KindLine], kind: Kind) -> &[u8]
    ensures { result.now ≡ name_at kinds.now kind }
{
    match kinds.get(usize::from(kind.place())) {
        Some(line) => line.name.as_bytes(),
        None => &[],
    }
}

/// The declared type of that name.
pub(crate) fn declared_kind(policy: &PolicyText, kinds: &Kinds, name: &Name) -> Kind
    requires kinds { AreKindsOf policy.now kinds.now }
    requires declared { is_kind policy.now.kinds name.now ≡ true }
    ensures name { kind_at policy.now result ≡ name.now }
    ensures within { result < 128 }
{
    match kinds.find(name) {
        Some(kind) => kind,
        None => unreachable!(),
    }
}
