//! Sets of types by the names that mean them, found at first sight.

ghost use Rattle.std.specs.Prelude.{◌≡◌, [], ◌∷◌, ◌++◌, OnOk, IfSome};
ghost use Rattle.policy_model.specs.declared.policy.PolicyParts.{PolicyParts};
ghost use Rattle.policy_versions.specs.Kinds.{AreNamed, IsSetOf};

use crate::kind_set::KindSet;
use flask_sid::{Memory, Name, Rows};
use policy_model::Guesses;
use std::alloc::Global;
use std::marker::Model;

/// The set of the types that a name means.
#[derive(Drop)]
pub(crate) struct NamedSet {
    pub(crate) name: Name,
    pub(crate) set: KindSet,
}

/// Sets by their names, of which nearly all are found at a guess. Contracts see their list.
#[derive(Drop)]
pub(crate) struct NamedSets {
    sets: Rows<NamedSet>,
    guesses: Guesses,
}

impl Model for NamedSets {
    ghost use Rattle.std.specs.Prelude.{List};
    ghost use Rattle.policy_versions.specs.declared.named_sets.NamedSet.{NamedSet};

    ghost Value = { List NamedSet };

    ghost view = { λ named. named.sets };
}

impl NamedSets {
    /// No sets.
    pub(crate) fn new(alloc: Global) -> NamedSets
        ensures { result ≡ [] }
    {
        NamedSets {
            sets: Rows::new(alloc),
            guesses: Guesses::new(),
        }
    }

    /// The set of a name, where it stands at the place at which it is guessed. Where it does not, nothing is known.
    #[inline(always)]
    pub(crate) fn find(&self, name: &Name) -> Option<&KindSet>
        ensures { IfSome result (λ set. (policy : PolicyParts) → AreNamed policy self.now → IsSetOf policy name.now set.now.words) }
    {
        match self.sets.get(self.guesses.place(name.as_bytes())) {
            Some(named) => {
                if named.name == *name {
                    Some(&named.set)
                } else {
                    None
                }
            }
            None => None,
        }
    }

    /// Adds the set of a name.
    pub(crate) fn add(&mut self, name: Name, set: KindSet) -> Result<(), Memory>
        ensures { OnOk result (self.new ≡ self.old ++ record { name = name; set = set } ∷ []) }
    {
        let place = self.sets.len();
        self.guesses.note(name.as_bytes(), place);
        self.sets.push(NamedSet { name, set })
    }
}
