//! Which questions a line matches.

ghost use Rattle.std.specs.Prelude.{◌≡◌};
ghost use Rattle.std.specs.List.{list_any};
ghost use Rattle.std.specs.Str.{bytes_eq};
ghost use Rattle.policy_model.specs.Matching;

use crate::policy::{AttributeLine, Pattern, PolicyParts, RuleLine, Who};
use access_vectors::{Class, Perm};
use flask_sid::Name;

impl PolicyParts {
    /// Whether a rule line matches a source type, a target type and a class.
    #[tactic(auto, unfolding(crate::specs::Matching::matches))]
    pub fn matches(&self, rule: &RuleLine, s: &[u8], t: &[u8], class: Class) -> bool
        ensures { result ≡ Matching.matches self.now.attributes rule.now s.now t.now class }
    {
        self.matches_source(&rule.source, s)
            && self.matches_target(&rule.target, s, t)
            && rule.class.code() == class.code()
    }

    /// Whether a line on permissions matches a source type, a target type and a permission.
    #[tactic(auto, unfolding(crate::specs::Matching::matches_permission))]
    pub fn matches_permission(&self, pattern: &Pattern, s: &[u8], t: &[u8], perm: Perm) -> bool
        ensures { result ≡ Matching.matches_permission self.now.attributes pattern.now s.now t.now perm }
    {
        self.matches_source(&pattern.source, s)
            && self.matches_target(&pattern.target, s, t)
            && pattern.class.code() == perm.class().code()
            && pattern.perms.has(perm.index())
    }

    #[tactic(auto, unfolding(crate::specs::Matching::matches_source))]
    fn matches_source(&self, source: &Who, s: &[u8]) -> bool
        ensures { result ≡ Matching.matches_source self.now.attributes source.now s.now }
    {
        match source {
            Who::Named(name) => self.means(name, s),
            Who::Any => true,
            Who::Itself => false,
        }
    }

    #[tactic(auto, unfolding(crate::specs::Matching::matches_target))]
    fn matches_target(&self, target: &Who, s: &[u8], t: &[u8]) -> bool
        ensures { result ≡ Matching.matches_target self.now.attributes target.now s.now t.now }
    {
        match target {
            Who::Named(name) => self.means(name, t),
            Who::Any => true,
            Who::Itself => s == t,
        }
    }

    fn means(&self, name: &Name, kind: &[u8]) -> bool
        ensures { result ≡ Matching.means self.now.attributes name.now kind.now }
    {
        name.as_bytes() == kind || self.is_in(name, kind)
    }

    #[tactic(auto, unfolding(crate::specs::Matching::is_in))]
    fn is_in(&self, name: &Name, kind: &[u8]) -> bool
        ensures { result ≡ Matching.is_in self.now.attributes name.now kind.now }
    {
        self.attributes.as_slice().iter().any(|attribute| attribute.name.as_bytes()
            == name.as_bytes()
            && has_member(attribute, kind))
    }
}

fn has_member(attribute: &AttributeLine, kind: &[u8]) -> bool
    ensures { result ≡ list_any (λ member. bytes_eq member kind.now) attribute.now.members }
{
    attribute
        .members
        .as_slice()
        .iter()
        .any(|member| member.as_bytes() == kind)
}
