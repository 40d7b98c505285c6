//! What a version decides.

ghost use Rattle.std.specs.Prelude.{◌≡◌, ◌∷◌, ◌++◌, [], List, IfOk};
ghost use Rattle.std.specs.Option.{option_map};
ghost use Rattle.policy_model.specs.Deciding;
ghost use Rattle.policy_model.specs.declared.policy.RuleLine.{RuleLine};

use crate::policy::{PolicyParts, RuleLine, Verdict};
use access_vectors::{Class, Vector};

// These walk the lines: they are the definition's own program.
impl PolicyParts {
    /// The permissions of a class that a source of type `s` has on a target of type `t`, in a version. A version
    /// that is not there allows nothing.
    #[tactic(auto, unfolding(crate::specs::Deciding::vector_of))]
    pub fn vector_of(&self, version: u8, s: &[u8], t: &[u8], class: Class) -> Vector
        ensures { result ≡ Deciding.vector_of self.now version s.now t.now class }
    {
        self.decided_vector(self.rules_at(version), s, t, class)
    }

    #[tactic(auto, unfolding(crate::specs::Deciding::rules_at))]
    pub(crate) fn rules_at(&self, version: u8) -> &[RuleLine]
        ensures { result.now ≡ Deciding.rules_at self.now version }
    {
        match self.versions.get(usize::from(version)) {
            None => &[],
            Some(version) => version.rules.as_slice(),
        }
    }

    fn decided_vector(&self, rules: &[RuleLine], s: &[u8], t: &[u8], class: Class) -> Vector
        ensures { result ≡ Deciding.decided_vector self.now.attributes rules.now s.now t.now class }
    {
        let mut vector = Vector::empty();
        'rules: for rule in rules {
            vector = self.below_rule(vector, rule, s, t, class);
        }
        vector
    }

    // The vector of rule lines and one more, by that of the lines above it.
    fn below_rule(
        &self,
        vector: Vector,
        rule: &RuleLine,
        s: &[u8],
        t: &[u8],
        class: Class,
    ) -> Vector
        ensures { (above : List RuleLine)
            → vector ≡ Deciding.decided_vector self.now.attributes above s.now t.now class
            → result ≡ Deciding.decided_vector self.now.attributes (above ++ rule.now ∷ []) s.now t.now class }
    {
        if !self.matches(rule, s, t, class) {
            return vector;
        }
        match &rule.verdict {
            Verdict::Allow(perms) => Vector::of(vector.bits() | perms.bits()),
            Verdict::Withhold(perms) => Vector::of(vector.bits() ^ (vector.bits() & perms.bits())),
            Verdict::Transition(_) => vector,
            Verdict::Member(_) => vector,
        }
    }
}
