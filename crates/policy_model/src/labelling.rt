//! Which contexts a version gives.

ghost use Rattle.std.specs.Prelude.{◌≡◌, IfOk};
ghost use Rattle.std.specs.Option.{option_copied};
ghost use Rattle.policy_model.specs.Deciding;

use crate::policy::{Labelling, PolicyParts, RuleLine, Verdict};
use access_vectors::Class;
use flask_sid::{Context, ContextOf, Memory, Name, Word};
use std::alloc::Global;

// These walk the lines: they are the definition's own program.
impl PolicyParts {
    /// The label of a new object of a class that `s` makes at `t`, in a version.
    #[tactic(auto, unfolding(crate::specs::Deciding::label_of))]
    pub fn label_of(
        &self,
        alloc: Global,
        version: u8,
        s: &Context,
        t: &Context,
        class: Class,
    ) -> Result<Context, Memory>
        ensures { IfOk result (λ label. label ≡ Deciding.label_of self.now version s.now t.now class) }
    {
        let given = self.given_kind(
            Labelling::Transition,
            version,
            s.kind.as_bytes(),
            t.kind.as_bytes(),
            class,
        );
        if takes_after_maker(class) {
            let kind = given.unwrap_or(&s.kind).copy(alloc)?;
            Ok(ContextOf {
                user: s.user.copy(alloc)?,
                role: s.role.copy(alloc)?,
                kind,
            })
        } else {
            let kind = given.unwrap_or(&t.kind).copy(alloc)?;
            Ok(ContextOf {
                user: s.user.copy(alloc)?,
                role: object_role(alloc)?,
                kind,
            })
        }
    }

    /// The member of `t` that `s` is led to as to an object of a class, in a version.
    #[tactic(auto, unfolding(crate::specs::Deciding::member_of))]
    pub fn member_of(
        &self,
        alloc: Global,
        version: u8,
        s: &Context,
        t: &Context,
        class: Class,
    ) -> Result<Context, Memory>
        ensures { IfOk result (λ member. member ≡ Deciding.member_of self.now version s.now t.now class) }
    {
        match self.given_kind(
            Labelling::Member,
            version,
            s.kind.as_bytes(),
            t.kind.as_bytes(),
            class,
        ) {
            None => Ok(ContextOf {
                user: t.user.copy(alloc)?,
                role: t.role.copy(alloc)?,
                kind: t.kind.copy(alloc)?,
            }),
            Some(kind) => Ok(ContextOf {
                user: s.user.copy(alloc)?,
                role: object_role(alloc)?,
                kind: kind.copy(alloc)?,
            }),
        }
    }

    /// The type that a version's last matching line of a kind gives, or `None` exactly where no such line matches.
    #[tactic(auto, unfolding(crate::specs::Deciding::given_kind))]
    pub fn given_kind(
        &self,
        labelling: Labelling,
        version: u8,
        s: &[u8],
        t: &[u8],
        class: Class,
    ) -> Option<&Name>
        ensures { option_copied result
            ≡ Deciding.given_kind labelling self.now version s.now t.now class }
    {
        let rules = self.rules_at(version);
        let mut given = None;
        'rules: for rule in rules {
            given = newer(self.gives_kind(labelling, rule, s, t, class), given);
        }
        given
    }

    #[tactic(auto, unfolding(crate::specs::Deciding::gives_kind))]
    fn gives_kind<'a>(
        &self,
        labelling: Labelling,
        rule: &'a RuleLine,
        s: &[u8],
        t: &[u8],
        class: Class,
    ) -> Option<&'a Name>
        ensures { option_copied result
            ≡ Deciding.gives_kind labelling self.now.attributes s.now t.now class rule.now }
    {
        if self.matches(rule, s, t, class) {
            kind_given(labelling, &rule.verdict)
        } else {
            None
        }
    }
}

fn kind_given(labelling: Labelling, verdict: &Verdict) -> Option<&Name>
    ensures { option_copied result ≡ Deciding.kind_given labelling verdict.now }
{
    match (labelling, verdict) {
        (Labelling::Transition, Verdict::Transition(kind)) => Some(kind),
        (Labelling::Member, Verdict::Member(kind)) => Some(kind),
        _ => None,
    }
}

fn newer<'a>(said: Option<&'a Name>, before: Option<&'a Name>) -> Option<&'a Name>
    ensures { option_copied result ≡ Deciding.or_else (option_copied said.entry) (option_copied before.entry) }
{
    match said {
        Some(kind) => Some(kind),
        None => before,
    }
}

fn takes_after_maker(class: Class) -> bool
    ensures { result ≡ Deciding.takes_after_maker class }
{
    match class {
        Class::Process => true,
        _ => false,
    }
}

fn object_role(alloc: Global) -> Result<Name, Memory>
    ensures { IfOk result (λ role. role ≡ Deciding.object_role) }
{
    Name::of(alloc, &Word::new(b"object_r"))
}
