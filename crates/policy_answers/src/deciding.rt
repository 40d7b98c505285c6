//! What a version decides, and the line that decides it.

ghost use Rattle.std.specs.Prelude.{◌≡◌, ◌<◌, is_some, IfOk};
ghost use Rattle.access_vectors.specs.Table.{perm_count};
ghost use Rattle.policy_model.specs.Deciding;
ghost use Rattle.policy_answers.specs.Deciders;

use access_vectors::{Class, Perm};
use flask_sid::{Memory, Rows};
use policy_model::{Labelling, PolicyParts, PolicyText, RuleLine, Verdict};
use std::alloc::Global;

/// Whether a version allows a permission, and the number of the line that decides it: of the version's lines the last that
/// speaks of the permission. Without such a line the answer is no.
#[derive(Clone, Copy)]
pub struct Decision {
    pub perm: Perm,
    pub yes: bool,
    pub line: Option<u32>,
}

/// What a version, counted from 0, decides on a permission of sources of type `s` on targets of type `t`, and by which line. A
/// version that is not there allows nothing, by no line.
#[tactic(auto, unfolding(crate::specs::Deciders::decision_on))]
pub fn decision_on(policy: &PolicyText, version: u8, s: &[u8], t: &[u8], perm: Perm) -> Decision
    ensures { result ≡ Deciders.decision_on policy.now version s.now t.now perm }
{
    let parts = policy.parts();
    Decision {
        perm,
        yes: parts
            .vector_of(version, s, t, perm.class())
            .has(perm.index()),
        line: deciding_line(parts, version, s, t, perm),
    }
}

/// What a version decides on each permission of a class, in the order of the class.
#[tactic(auto, unfolding(crate::specs::Deciders::decisions))]
pub fn decisions(
    alloc: Global,
    policy: &PolicyText,
    version: u8,
    s: &[u8],
    t: &[u8],
    class: Class,
) -> Result<Rows<Decision>, Memory>
    ensures { IfOk result (λ found. found ≡ Deciders.decisions policy.now version s.now t.now class) }
{
    let mut found = Rows::new(alloc);
    'indexes: for index in 0..class.perm_count() {
        found.push(decision_on(policy, version, s, t, perm_at(class, index)))?;
    }
    Ok(found)
}

/// The permission at an index of a class.
pub(crate) fn perm_at(class: Class, index: u8) -> Perm
    requires { index < perm_count class }
    ensures { result ≡ record { class = class; index = index } }
{
    match Perm::of(class, index) {
        Some(perm) => perm,
        None => unreachable!(),
    }
}

/// The number of the line that decides a permission.
#[tactic(auto, unfolding(crate::specs::Deciders::deciding_line))]
pub(crate) fn deciding_line(
    policy: &PolicyParts,
    version: u8,
    s: &[u8],
    t: &[u8],
    perm: Perm,
) -> Option<u32>
    ensures { result ≡ Deciders.deciding_line policy.now version s.now t.now perm }
{
    let rules = rules_at(policy, version);
    let mut line = None;
    'rules: for rule in rules {
        line = newer(speaking_line(policy, rule, s, t, perm), line);
    }
    line
}

#[tactic(auto, unfolding(policy_model::specs::Deciding::rules_at))]
fn rules_at(policy: &PolicyParts, version: u8) -> &[RuleLine]
    ensures { result.now ≡ Deciding.rules_at policy.now version }
{
    match policy.versions.get(usize::from(version)) {
        None => &[],
        Some(version) => version.rules.as_slice(),
    }
}

/// The number of a line, where it speaks of a permission.
#[tactic(auto, unfolding(crate::specs::Deciders::speaking_line, policy_model::specs::Deciding::says_of))]
fn speaking_line(
    policy: &PolicyParts,
    rule: &RuleLine,
    s: &[u8],
    t: &[u8],
    perm: Perm,
) -> Option<u32>
    ensures { result ≡ Deciders.speaking_line policy.now.attributes s.now t.now perm rule.now }
{
    if policy.matches(rule, s, t, perm.class()) && speaks_of(&rule.verdict, perm) {
        Some(rule.line)
    } else {
        None
    }
}

#[tactic(auto, unfolding(policy_model::specs::Deciding::verdict_on))]
fn speaks_of(verdict: &Verdict, perm: Perm) -> bool
    ensures { result ≡ is_some (Deciding.verdict_on verdict.now perm.index) }
{
    match verdict {
        Verdict::Allow(perms) => perms.has(perm.index()),
        Verdict::Withhold(perms) => perms.has(perm.index()),
        Verdict::Transition(_) => false,
        Verdict::Member(_) => false,
    }
}

fn newer(said: Option<u32>, before: Option<u32>) -> Option<u32>
    ensures { result ≡ Deciding.or_else said before }
{
    match said {
        Some(line) => Some(line),
        None => before,
    }
}

/// The number of the line by which a version gives a type, to a new object or as a member.
#[tactic(auto, unfolding(crate::specs::Deciders::labelling_line))]
pub(crate) fn labelling_line(
    policy: &PolicyParts,
    labelling: Labelling,
    version: u8,
    s: &[u8],
    t: &[u8],
    class: Class,
) -> Option<u32>
    ensures { result ≡ Deciders.labelling_line labelling policy.now version s.now t.now class }
{
    let rules = rules_at(policy, version);
    let mut line = None;
    'rules: for rule in rules {
        line = newer(giving_line(policy, labelling, rule, s, t, class), line);
    }
    line
}

/// The number of a line, where it gives a type.
#[tactic(auto, unfolding(crate::specs::Deciders::giving_line, policy_model::specs::Deciding::gives_kind))]
fn giving_line(
    policy: &PolicyParts,
    labelling: Labelling,
    rule: &RuleLine,
    s: &[u8],
    t: &[u8],
    class: Class,
) -> Option<u32>
    ensures { result ≡ Deciders.giving_line labelling policy.now.attributes s.now t.now class rule.now }
{
    if policy.matches(rule, s, t, class) && is_labelling(labelling, &rule.verdict) {
        Some(rule.line)
    } else {
        None
    }
}

/// Whether a verdict gives a type, as a line of this kind does.
fn is_labelling(labelling: Labelling, verdict: &Verdict) -> bool
    ensures { result ≡ is_some (Deciding.kind_given labelling verdict.now) }
{
    match (labelling, verdict) {
        (Labelling::Transition, Verdict::Transition(_)) => true,
        (Labelling::Member, Verdict::Member(_)) => true,
        _ => false,
    }
}
