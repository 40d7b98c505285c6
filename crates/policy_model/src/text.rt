//! A whole policy, which keeps what a text asks of one.

ghost use Rattle.std.specs.Prelude.{◌≡◌};
ghost use Rattle.policy_model.specs.Kept.{IsWholePolicy};

use crate::policy::PolicyParts;
use std::marker::Model;

/// A policy as a text gives it: its names have their forms, are declared before they are used and once, and no list
/// is longer than its limit. Contracts see the lists.
#[derive(Debug, Drop)]
pub struct PolicyText {
    parts: PolicyParts,
}

impl Model for PolicyText {
    ghost use Rattle.policy_model.specs.declared.policy.PolicyParts.{PolicyParts};
    ghost use Rattle.policy_model.specs.Kept.{IsWholePolicy};

    ghost Value = { PolicyParts };

    ghost view = { λ policy. policy.parts };

    ghost invariant = { λ policy. IsWholePolicy policy.parts };
}

impl PolicyText {
    /// The policy of lists that keep this.
    pub fn of(parts: PolicyParts) -> PolicyText
        requires { IsWholePolicy parts }
        ensures { result ≡ parts }
    {
        PolicyText { parts }
    }

    /// The seven lists.
    pub fn parts(&self) -> &PolicyParts
        ensures parts { result.now ≡ self.now }
        ensures kept { IsWholePolicy self.now }
    {
        &self.parts
    }
}
