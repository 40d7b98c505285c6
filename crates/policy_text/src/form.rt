//! What each line says by itself.

ghost use Rattle.std.specs.Prelude.{◌≡◌};
ghost use Rattle.std.specs.List.{list_all};
ghost use Rattle.flask_sid.specs.Names.{is_kind_form, is_name_form};
ghost use Rattle.policy_text.specs.Forms;

use flask_sid::{ContextOf, Word, context_form};
use policy_model::{Labelling, WhoOf};
use text_lines::Words;

/// A list of lines on permissions outside the versions.
#[derive(Clone, Copy, Debug, PartialEq, Eq)]
pub enum Listing {
    Never,
    Silent,
    Loud,
}

/// What a line on permissions in a version decides.
#[derive(Clone, Copy, Debug, PartialEq, Eq)]
pub enum Decision {
    Allow,
    Withhold,
}

/// The words of a line on permissions.
#[derive(Debug, Drop)]
pub struct PatternForm<'a> {
    pub source: WhoOf<Word<'a>>,
    pub target: WhoOf<Word<'a>>,
    pub class: Word<'a>,
    pub perms: Words<'a>,
}

/// The words of a line that gives a type.
#[derive(Debug, Drop)]
pub struct LabelForm<'a> {
    pub source: WhoOf<Word<'a>>,
    pub target: WhoOf<Word<'a>>,
    pub class: Word<'a>,
    pub kind: Word<'a>,
}

/// What a line says by itself. Its names may be too long yet, and nothing is known of what they name.
#[derive(Debug, Drop)]
pub enum Form<'a> {
    Header,
    Context(ContextOf<Word<'a>>),
    Kind(Word<'a>),
    Attribute(Word<'a>, Words<'a>),
    Listed(Listing, PatternForm<'a>),
    Version,
    Decided(Decision, PatternForm<'a>),
    Labelled(Labelling, LabelForm<'a>),
}

/// What the words of a line say, or `None` where they are no line of a policy text.
#[tactic(auto, unfolding(crate::specs::Forms::line_form))]
pub fn line_form<'a>(first: &Word<'a>, words: Words<'a>) -> Option<Form<'a>>
    ensures { result ≡ Forms.line_form first.now words.entry }
{
    if first.is(b"allow") {
        return decided_form(Decision::Allow, words);
    }
    if first.is(b"withhold") {
        return decided_form(Decision::Withhold, words);
    }
    if first.is(b"transition") {
        return labelled_form(Labelling::Transition, words);
    }
    if first.is(b"member") {
        return labelled_form(Labelling::Member, words);
    }
    if first.is(b"version") {
        return version_form(words);
    }
    declaration_form(first, words)
}

#[tactic(auto, unfolding(crate::specs::Forms::declaration_form))]
fn declaration_form<'a>(first: &Word<'a>, words: Words<'a>) -> Option<Form<'a>>
    ensures { result ≡ Forms.declaration_form first.now words.entry }
{
    if first.is(b"policy") {
        return header_form(words);
    }
    if first.is(b"context") {
        return context_line_form(words);
    }
    if first.is(b"type") {
        return kind_line_form(words);
    }
    if first.is(b"attribute") {
        return attribute_form(words);
    }
    if first.is(b"neverallow") {
        return listed_form(Listing::Never, words);
    }
    if first.is(b"dontaudit") {
        return listed_form(Listing::Silent, words);
    }
    if first.is(b"auditallow") {
        return listed_form(Listing::Loud, words);
    }
    None
}

#[tactic(auto, unfolding(crate::specs::Forms::header_form))]
fn header_form<'a>(mut words: Words<'a>) -> Option<Form<'a>>
    ensures { result ≡ Forms.header_form words.entry }
{
    let number = only_word(words)?;
    if number.is(b"1") {
        Some(Form::Header)
    } else {
        None
    }
}

#[tactic(auto, unfolding(crate::specs::Forms::context_line_form))]
fn context_line_form<'a>(words: Words<'a>) -> Option<Form<'a>>
    ensures { result ≡ Forms.context_line_form words.entry }
{
    let word = only_word(words)?;
    let context = context_form(word.as_bytes())?;
    Some(Form::Context(context))
}

#[tactic(auto, unfolding(crate::specs::Forms::kind_line_form))]
fn kind_line_form<'a>(words: Words<'a>) -> Option<Form<'a>>
    ensures { result ≡ Forms.kind_line_form words.entry }
{
    let name = only_word(words)?;
    if name.is_kind_form() {
        Some(Form::Kind(name))
    } else {
        None
    }
}

#[tactic(auto, unfolding(crate::specs::Forms::attribute_form))]
fn attribute_form<'a>(mut words: Words<'a>) -> Option<Form<'a>>
    ensures { result ≡ Forms.attribute_form words.entry }
{
    let name = words.next()?;
    if name.is_kind_form() && are_members(&words) {
        Some(Form::Attribute(name, words))
    } else {
        None
    }
}

#[tactic(auto, unfolding(crate::specs::Forms::listed_form))]
fn listed_form<'a>(listing: Listing, words: Words<'a>) -> Option<Form<'a>>
    ensures { result ≡ Forms.listed_form listing words.entry }
{
    let pattern = pattern_form(words)?;
    Some(Form::Listed(listing, pattern))
}

#[tactic(auto, unfolding(crate::specs::Forms::version_form))]
fn version_form<'a>(mut words: Words<'a>) -> Option<Form<'a>>
    ensures { result ≡ Forms.version_form words.entry }
{
    match words.next() {
        None => Some(Form::Version),
        Some(_) => None,
    }
}

#[tactic(auto, unfolding(crate::specs::Forms::decided_form))]
fn decided_form<'a>(decision: Decision, words: Words<'a>) -> Option<Form<'a>>
    ensures { result ≡ Forms.decided_form decision words.entry }
{
    let pattern = pattern_form(words)?;
    Some(Form::Decided(decision, pattern))
}

#[tactic(auto, unfolding(crate::specs::Forms::labelled_form))]
fn labelled_form<'a>(labelling: Labelling, words: Words<'a>) -> Option<Form<'a>>
    ensures { result ≡ Forms.labelled_form labelling words.entry }
{
    let label = label_form(words)?;
    Some(Form::Labelled(labelling, label))
}

/// The words of a line on permissions, or `None` where they are none.
#[tactic(auto, unfolding(crate::specs::Forms::pattern_form))]
pub fn pattern_form<'a>(mut words: Words<'a>) -> Option<PatternForm<'a>>
    ensures { result ≡ Forms.pattern_form words.entry }
{
    let source = words.next()?;
    let target = words.next()?;
    let class = words.next()?;
    let source = source_of(source)?;
    let target = target_of(target)?;
    if class.is_name_form() && are_perms(&words) {
        Some(PatternForm {
            source,
            target,
            class,
            perms: words,
        })
    } else {
        None
    }
}

#[tactic(auto, unfolding(crate::specs::Forms::label_form))]
fn label_form<'a>(mut words: Words<'a>) -> Option<LabelForm<'a>>
    ensures { result ≡ Forms.label_form words.entry }
{
    let source = words.next()?;
    let target = words.next()?;
    let class = words.next()?;
    let kind = only_word(words)?;
    let source = source_of(source)?;
    let target = target_of(target)?;
    if class.is_name_form() && kind.is_kind_form() {
        Some(LabelForm {
            source,
            target,
            class,
            kind,
        })
    } else {
        None
    }
}

/// Whether the word is `*`, which stands for all of a kind.
pub(crate) fn is_star(word: &Word<'_>) -> bool
    ensures { result ≡ Forms.is_star word.now }
{
    match word.as_bytes() {
        b"*" => true,
        _ => false,
    }
}

#[tactic(auto, unfolding(crate::specs::Forms::source_of))]
fn source_of<'a>(word: Word<'a>) -> Option<WhoOf<Word<'a>>>
    ensures { result ≡ Forms.source_of word.entry }
{
    if is_star(&word) {
        return Some(WhoOf::Any);
    }
    if word.is_kind_form() {
        Some(WhoOf::Named(word))
    } else {
        None
    }
}

#[tactic(auto, unfolding(crate::specs::Forms::target_of))]
fn target_of<'a>(word: Word<'a>) -> Option<WhoOf<Word<'a>>>
    ensures { result ≡ Forms.target_of word.entry }
{
    if word.is_self() {
        Some(WhoOf::Itself)
    } else {
        source_of(word)
    }
}

#[tactic(auto, unfolding(crate::specs::Forms::only_word))]
fn only_word<'a>(mut words: Words<'a>) -> Option<Word<'a>>
    ensures { result ≡ Forms.only_word words.entry }
{
    let word = words.next()?;
    match words.next() {
        None => Some(word),
        Some(_) => None,
    }
}

#[tactic(auto, unfolding(crate::specs::Forms::are_perms))]
fn are_perms(words: &Words<'_>) -> bool
    ensures { result ≡ Forms.are_perms words.now }
{
    let mut rest = words.again();
    match rest.next() {
        None => false,
        Some(first) => {
            if is_star(&first) {
                rest.next().is_none()
            } else {
                first.is_name_form() && are_names(rest)
            }
        }
    }
}

fn are_names(words: Words<'_>) -> bool
    ensures { result ≡ list_all is_name_form words.entry }
{
    let mut rest = words;
    'names: while let Some(word) = rest.next() {
        if !word.is_name_form() {
            return false;
        }
    }
    true
}

#[tactic(auto, unfolding(crate::specs::Forms::are_members))]
fn are_members(words: &Words<'_>) -> bool
    ensures { result ≡ Forms.are_members words.now }
{
    let mut rest = words.again();
    match rest.next() {
        None => false,
        Some(first) => first.is_kind_form() && are_kind_names(rest),
    }
}

fn are_kind_names(words: Words<'_>) -> bool
    ensures { result ≡ list_all is_kind_form words.entry }
{
    let mut rest = words;
    'names: while let Some(word) = rest.next() {
        if !word.is_kind_form() {
            return false;
        }
    }
    true
}
