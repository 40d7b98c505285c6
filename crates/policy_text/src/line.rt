//! One line of a policy text, below the lines above it.

ghost use Rattle.std.specs.Prelude.{◌≡◌, ◌≤◌, ◌∷◌, OnOk};
ghost use Rattle.policy_text.specs.Forms;
ghost use Rattle.policy_text.specs.Leaving.{Leaves};
ghost use Rattle.policy_text.specs.Grammar;

use crate::declarations::{attribute_read, context_read, kind_read, listed_read};
use crate::draft::Draft;
use crate::form::{Decision, Form, line_form, pattern_form};
use crate::rules::{decided_read, labelled_read, plain_read, version_read};
use flask_sid::Word;
use std::alloc::Global;
use text_lines::{FaultKind, Line, Refusal, Words, line_words};

/// Adds what a line says to what the lines above it say.
#[tactic(auto, unfolding(crate::specs::Grammar::line_read))]
pub(crate) fn line_read<'a>(
    alloc: Global,
    number: u32,
    line: &Line<'a>,
    above: &mut Option<Draft<'a>>,
) -> Result<(), Refusal>
    ensures said { Leaves result above.new (Grammar.line_read number line.now above.old) }
    ensures counted { OnOk result (number ≤ 100000) }
{
    match line_words(number, line) {
        Ok(words) => words_read(alloc, number, words, above),
        Err(kind) => Err(Refusal::Fault(kind)),
    }
}

#[tactic(auto, unfolding(crate::specs::Grammar::words_read, crate::specs::Forms::line_form))]
fn words_read<'a>(
    alloc: Global,
    number: u32,
    mut words: Words<'a>,
    above: &mut Option<Draft<'a>>,
) -> Result<(), Refusal>
    ensures { Leaves result above.new (Grammar.words_read number words.entry above.old) }
{
    match words.next() {
        None => Ok(()),
        Some(first) => {
            if first.is(b"allow") {
                return decided_line(alloc, number, Decision::Allow, words, above);
            }
            if first.is(b"withhold") {
                return decided_line(alloc, number, Decision::Withhold, words, above);
            }
            other_line(alloc, number, &first, words, above)
        }
    }
}

// An `allow` or `withhold` line, which most lines of a long policy are. With nearly each of them nothing is wrong, and then its
// words are walked over once.
#[inline(never)]
fn decided_line<'a>(
    alloc: Global,
    number: u32,
    decision: Decision,
    words: Words<'a>,
    above: &mut Option<Draft<'a>>,
) -> Result<(), Refusal>
    ensures { Leaves result above.new (Grammar.formed_read number (Forms.decided_form decision words.entry) above.old) }
{
    if let Some(policy) = above {
        if plain_read(alloc, number, decision, &words, policy)? {
            return Ok(());
        }
    }
    worded_line(alloc, number, decision, words, above)
}

// An `allow` or `withhold` line. Its form is told first, and what its names stand for second.
#[inline(never)]
#[tactic(auto, unfolding(crate::specs::Forms::decided_form, crate::specs::Grammar::form_read, crate::specs::Grammar::below_header))]
fn worded_line<'a>(
    alloc: Global,
    number: u32,
    decision: Decision,
    words: Words<'a>,
    above: &mut Option<Draft<'a>>,
) -> Result<(), Refusal>
    ensures { Leaves result above.new (Grammar.formed_read number (Forms.decided_form decision words.entry) above.old) }
{
    match pattern_form(words) {
        None => Err(Refusal::Fault(FaultKind::Syntax)),
        Some(pattern) => match above {
            Some(policy) => decided_read(alloc, number, decision, &pattern, policy),
            None => Err(Refusal::Fault(FaultKind::Order)),
        },
    }
}

// Any line. It is not inlined, so that a rule line makes no room for what it holds.
#[inline(never)]
#[tactic(auto, unfolding(crate::specs::Grammar::words_read))]
fn other_line<'a>(
    alloc: Global,
    number: u32,
    first: &Word<'a>,
    words: Words<'a>,
    above: &mut Option<Draft<'a>>,
) -> Result<(), Refusal>
    ensures { Leaves result above.new (Grammar.words_read number (first.now ∷ words.entry) above.old) }
{
    match line_form(first, words) {
        None => Err(Refusal::Fault(FaultKind::Syntax)),
        Some(form) => form_read(alloc, number, form, above),
    }
}

#[tactic(auto, unfolding(crate::specs::Grammar::form_read))]
fn form_read<'a>(
    alloc: Global,
    number: u32,
    form: Form<'a>,
    above: &mut Option<Draft<'a>>,
) -> Result<(), Refusal>
    ensures { Leaves result above.new (Grammar.form_read number form.entry above.old) }
{
    match above {
        Some(policy) => below_header(alloc, number, form, policy),
        None => match form {
            Form::Header => {
                *above = Some(Draft::new(alloc));
                Ok(())
            }
            _ => Err(Refusal::Fault(FaultKind::Order)),
        },
    }
}

#[tactic(auto, unfolding(crate::specs::Grammar::below_header))]
fn below_header<'a>(
    alloc: Global,
    n: u32,
    form: Form<'a>,
    policy: &mut Draft<'a>,
) -> Result<(), Refusal>
    ensures { Leaves result policy.new (Grammar.below_header n form.entry policy.old) }
{
    match form {
        Form::Header => Err(Refusal::Fault(FaultKind::Order)),
        Form::Context(context) => context_read(alloc, n, context, policy),
        Form::Kind(name) => kind_read(alloc, n, name, policy),
        Form::Attribute(name, members) => attribute_read(alloc, n, name, members, policy),
        Form::Listed(listing, words) => listed_read(alloc, n, listing, words, policy),
        Form::Version => version_read(alloc, n, policy),
        Form::Decided(decision, words) => decided_read(alloc, n, decision, &words, policy),
        Form::Labelled(labelling, words) => labelled_read(alloc, n, labelling, words, policy),
    }
}
