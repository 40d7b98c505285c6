//! What a line before the run says by itself: files, ports, clients and what stands beside them.

ghost use Rattle.std.specs.Prelude.{◌≡◌};
ghost use Rattle.session_forms.specs.SetupForms;

use crate::arguments::{is_end, last_word, only_context};
use crate::parts::{Parts, path_form};
use flask_sid::{ContextOf, Word, context_form};
use text_lines::{Words, numeral};

/// Whose context an `initial` line gives.
#[derive(Clone, Copy, Debug, PartialEq, Eq)]
pub enum Initial {
    /// The root directory's.
    Root,
    /// That of the ports without a line of their own.
    Ports,
}

/// What a session line says by itself. Its numbers, names and path may be past their limits yet.
#[derive(Debug, Drop)]
pub enum SetupForm<'a> {
    File(Parts<'a>, ContextOf<Word<'a>>, Option<Word<'a>>),
    Directory(Parts<'a>, ContextOf<Word<'a>>),
    Client(Word<'a>, ContextOf<Word<'a>>),
    Initial(Initial, ContextOf<Word<'a>>),
    Port(u64, ContextOf<Word<'a>>),
    Audit,
    /// The line below which lines run.
    Run,
}

/// What the words of a session line say, or `None` where they are no session line.
#[tactic(auto, unfolding(crate::specs::SetupForms::setup_form))]
pub fn setup_form<'a>(first: &Word<'a>, words: Words<'a>) -> Option<SetupForm<'a>>
    ensures { result ≡ SetupForms.setup_form first.now words.entry }
{
    if first.is(b"file") {
        return file_form(words);
    }
    if first.is(b"dir") {
        return directory_form(words);
    }
    if first.is(b"client") {
        return client_form(words);
    }
    if first.is(b"initial") {
        return initial_form(words);
    }
    if first.is(b"port") {
        return port_form(words);
    }
    if first.is(b"audit") {
        return alone(words, SetupForm::Audit);
    }
    if first.is(b"run") {
        return alone(words, SetupForm::Run);
    }
    None
}

#[tactic(auto, unfolding(crate::specs::SetupForms::file_form))]
fn file_form<'a>(mut words: Words<'a>) -> Option<SetupForm<'a>>
    ensures { result ≡ SetupForms.file_form words.entry }
{
    let path = words.next()?;
    let context = words.next()?;
    let bytes = last_word(words)?;
    let parts = path_form(&path)?;
    let context = context_form(context.as_bytes())?;
    Some(SetupForm::File(parts, context, bytes))
}

#[tactic(auto, unfolding(crate::specs::SetupForms::directory_form))]
fn directory_form<'a>(mut words: Words<'a>) -> Option<SetupForm<'a>>
    ensures { result ≡ SetupForms.directory_form words.entry }
{
    let path = words.next()?;
    let context = only_context(words)?;
    let parts = path_form(&path)?;
    Some(SetupForm::Directory(parts, context))
}

#[tactic(auto, unfolding(crate::specs::SetupForms::client_form))]
fn client_form<'a>(mut words: Words<'a>) -> Option<SetupForm<'a>>
    ensures { result ≡ SetupForms.client_form words.entry }
{
    let name = words.next()?;
    let context = only_context(words)?;
    if name.is_name_form() {
        Some(SetupForm::Client(name, context))
    } else {
        None
    }
}

#[tactic(auto, unfolding(crate::specs::SetupForms::initial_form))]
fn initial_form<'a>(mut words: Words<'a>) -> Option<SetupForm<'a>>
    ensures { result ≡ SetupForms.initial_form words.entry }
{
    let what = words.next()?;
    let context = only_context(words)?;
    Some(SetupForm::Initial(initial_of(&what)?, context))
}

/// Whose context an `initial` line gives, by the word behind `initial`.
#[tactic(auto, unfolding(crate::specs::SetupForms::initial_of))]
fn initial_of(word: &Word<'_>) -> Option<Initial>
    ensures { result ≡ SetupForms.initial_of word.now }
{
    if word.is(b"root") {
        return Some(Initial::Root);
    }
    if word.is(b"port") {
        return Some(Initial::Ports);
    }
    None
}

#[tactic(auto, unfolding(crate::specs::SetupForms::port_form))]
fn port_form<'a>(mut words: Words<'a>) -> Option<SetupForm<'a>>
    ensures { result ≡ SetupForms.port_form words.entry }
{
    let port = words.next()?;
    let context = only_context(words)?;
    Some(SetupForm::Port(numeral(&port)?, context))
}

/// The form, where no word is left.
fn alone<'a>(words: Words<'a>, form: SetupForm<'a>) -> Option<SetupForm<'a>>
    ensures { result ≡ SetupForms.alone words.entry form.entry }
{
    if is_end(words) { Some(form) } else { None }
}
