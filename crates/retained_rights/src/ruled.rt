//! A callback with the rule that it meets.

ghost use Rattle.std.specs.Prelude.{◌≡◌};
ghost use Rattle.retained_rights.specs.Rules.{Meets, ruled};

use crate::rule::{Callback, Rule};
use access_vectors::Vector;
use std::marker::Model;

/// A callback that meets a rule. Contracts see the rule.
#[derive(Debug, Drop)]
pub(crate) struct Ruled<F: Callback> {
    rule: Rule,
    callback: F,
}

impl<F: Callback> Model for Ruled<F> {
    ghost use Rattle.retained_rights.specs.declared.rule.Rule.{Rule};
    ghost use Rattle.retained_rights.specs.Rules.{Meets};

    ghost Value = { Rule };

    ghost view = { λ ruled. ruled.rule };

    ghost invariant = { λ ruled. Meets F.may F.gives ruled.rule ruled.callback };
}

impl<F: Callback> Ruled<F> {
    /// The callback with the rule that it meets.
    pub(crate) fn new(rule: Rule, callback: F) -> Ruled<F>
        requires { Meets F.may F.gives rule callback }
        ensures { result ≡ rule }
    {
        Ruled { rule, callback }
    }

    /// The usable bits of a mode under a vector.
    pub(crate) fn bits(&self, mode: Vector, vector: Vector) -> Vector
        ensures { result ≡ ruled self.now mode vector }
    {
        self.callback.apply(mode, vector)
    }
}
