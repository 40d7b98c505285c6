//! What the names in a line stand for, where the lines above and the table of classes know them.

ghost use Rattle.std.specs.Prelude.{◌≡◌, ◌∷◌, false, Some, IfOk, IfSome};
ghost use Rattle.text_lines.specs.ResultSteps.{found_or};
ghost use Rattle.text_lines.specs.Refusals.{Gives};
ghost use Rattle.text_lines.specs.declared.fault.FaultKind.TheVariants.{Unknown};
ghost use Rattle.policy_text.specs.Forms.{is_end};
ghost use Rattle.policy_text.specs.Known;
ghost use Rattle.policy_text.specs.Plain.{IsRuleRead};

use crate::draft::Draft;
use crate::form::{Decision, LabelForm, PatternForm, is_star};
use access_vectors::{Class, Vector, class_of, perm_of};
use flask_sid::{Memory, Name, Word};
use policy_model::{Labelling, Pattern, RuleLine, Verdict, Who, WhoOf};
use std::alloc::Global;
use text_lines::{FaultKind, Refusal, Words};

#[tactic(auto, unfolding(crate::specs::Known::whole_row))]
fn whole_row(class: Class) -> Vector
    ensures { result ≡ Known.whole_row class }
{
    match class {
        Class::File => Vector::of(0xff),
        Class::Dir => Vector::of(0xff),
        Class::Process => Vector::of(0x7f),
        Class::Port => Vector::of(0x1f),
        Class::Security => Vector::of(1),
    }
}

// The permissions that a name and the words behind it are.
fn perms_from(class: Class, first: &Word<'_>, words: Words<'_>) -> Option<Vector>
    ensures { result ≡ Known.perms_named class 0 (first.now ∷ words.entry) }
{
    let perm = perm_of(class, first.as_bytes())?;
    perms_with(class, Vector::empty().with(perm.index()), words)
}

fn perms_with(class: Class, known: Vector, words: Words<'_>) -> Option<Vector>
    ensures { result ≡ Known.perms_named class known words.entry }
{
    let mut vector = known;
    let mut rest = words;
    'names: while let Some(name) = rest.next() {
        let perm = perm_of(class, name.as_bytes())?;
        vector = vector.with(perm.index());
    }
    Some(vector)
}

#[tactic(auto, unfolding(crate::specs::Known::perms_of))]
fn perms_of(class: Class, words: &Words<'_>) -> Option<Vector>
    ensures { result ≡ Known.perms_of class words.now }
{
    let mut rest = words.again();
    match rest.next() {
        None => Some(Vector::empty()),
        Some(first) => {
            if is_star(&first) {
                Some(whole_row(class))
            } else {
                perms_from(class, &first, rest)
            }
        }
    }
}

// The permissions that one or more names are, or `None` for any other words.
fn plain_perms(class: Class, words: Words<'_>) -> Option<Vector>
    ensures known { IfSome result (λ perms. Known.perms_named class 0 words.entry ≡ Some perms) }
    ensures some { IfSome result (λ perms. is_end words.entry ≡ false) }
{
    let mut rest = words;
    match rest.next() {
        None => None,
        Some(first) => perms_from(class, &first, rest),
    }
}

fn kept_who(alloc: Global, words: &WhoOf<Word<'_>>) -> Result<Who, Memory>
    ensures { IfOk result (λ who. who ≡ words.now) }
{
    match words {
        WhoOf::Named(name) => {
            let name = Name::of(alloc, name)?;
            Ok(WhoOf::Named(name))
        }
        WhoOf::Any => Ok(WhoOf::Any),
        WhoOf::Itself => Ok(WhoOf::Itself),
    }
}

impl<'a> Draft<'a> {
    /// The line on permissions that the words of a line are. `Unknown` exactly where they name what no line above
    /// declares, or what the table of classes lacks.
    #[tactic(auto, unfolding(crate::specs::Known::pattern_of))]
    pub(crate) fn pattern(
        &self,
        alloc: Global,
        line: u32,
        words: &PatternForm<'a>,
    ) -> Result<Pattern, Refusal>
        ensures { Gives result (found_or Unknown (Known.pattern_of line words.now self.now)) }
    {
        if !self.is_known(&words.source) || !self.is_known(&words.target) {
            return Err(Refusal::Fault(FaultKind::Unknown));
        }
        let Some(class) = class_of(words.class.as_bytes()) else {
            return Err(Refusal::Fault(FaultKind::Unknown));
        };
        let Some(perms) = perms_of(class, &words.perms) else {
            return Err(Refusal::Fault(FaultKind::Unknown));
        };
        Ok(Pattern {
            line,
            source: kept_who(alloc, &words.source)?,
            target: kept_who(alloc, &words.target)?,
            class,
            perms,
        })
    }

    /// The rule line of an `allow` or `withhold` line with which nothing is wrong at first sight, by one walk over its words. `None`
    /// for any other line, of which nothing is known.
    #[inline(always)]
    pub(crate) fn plain_rule(
        &self,
        alloc: Global,
        line: u32,
        decision: Decision,
        words: &Words<'a>,
    ) -> Result<Option<RuleLine>, Memory>
        ensures { IfOk result (λ found. IfSome found (IsRuleRead line decision words.now self.now)) }
    {
        let mut rest = words.again();
        let (Some(source), Some(target), Some(class)) = (rest.next(), rest.next(), rest.next())
        else {
            return Ok(None);
        };
        if !self.is_plain(&source) || !self.is_plain(&target) {
            return Ok(None);
        }
        let Some(class) = class_of(class.as_bytes()) else {
            return Ok(None);
        };
        let Some(perms) = plain_perms(class, rest) else {
            return Ok(None);
        };
        Ok(Some(RuleLine {
            line,
            source: WhoOf::Named(Name::of(alloc, &source)?),
            target: WhoOf::Named(Name::of(alloc, &target)?),
            class,
            verdict: decided(decision, perms),
        }))
    }

    /// The rule line that the words of a line are, which give a type. `Unknown` as with `pattern`.
    #[tactic(auto, unfolding(crate::specs::Known::labelling_rule))]
    pub(crate) fn labelling_rule(
        &self,
        alloc: Global,
        line: u32,
        labelling: Labelling,
        words: &LabelForm<'a>,
    ) -> Result<RuleLine, Refusal>
        ensures { Gives result (found_or Unknown (Known.labelling_rule line labelling words.now self.now)) }
    {
        if !self.is_known(&words.source)
            || !self.is_known(&words.target)
            || !self.is_kind(&words.kind)
        {
            return Err(Refusal::Fault(FaultKind::Unknown));
        }
        let Some(class) = class_of(words.class.as_bytes()) else {
            return Err(Refusal::Fault(FaultKind::Unknown));
        };
        Ok(RuleLine {
            line,
            source: kept_who(alloc, &words.source)?,
            target: kept_who(alloc, &words.target)?,
            class,
            verdict: labelled(labelling, Name::of(alloc, &words.kind)?),
        })
    }
}

fn labelled(labelling: Labelling, kind: Name) -> Verdict
    ensures { result ≡ Known.labelled labelling kind }
{
    match labelling {
        Labelling::Transition => Verdict::Transition(kind),
        Labelling::Member => Verdict::Member(kind),
    }
}

/// The rule line that a line on permissions is.
pub(crate) fn deciding_rule(decision: Decision, pattern: Pattern) -> RuleLine
    ensures { result ≡ Known.deciding_rule decision pattern }
{
    let Pattern {
        line,
        source,
        target,
        class,
        perms,
    } = pattern;
    RuleLine {
        line,
        source,
        target,
        class,
        verdict: decided(decision, perms),
    }
}

fn decided(decision: Decision, perms: Vector) -> Verdict
    ensures { result ≡ Known.decided decision perms }
{
    match decision {
        Decision::Allow => Verdict::Allow(perms),
        Decision::Withhold => Verdict::Withhold(perms),
    }
}
