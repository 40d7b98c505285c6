//! The words behind the first ones of a line, where just so many are wanted.

ghost use Rattle.std.specs.Prelude.{◌≡◌};
ghost use Rattle.session_forms.specs.Arguments;

use flask_sid::{ContextOf, Word, context_form};
use text_lines::{FaultKind, Words};

/// The word, where it is alone.
#[tactic(auto, unfolding(crate::specs::Arguments::only_word))]
pub fn only_word<'a>(mut words: Words<'a>) -> Option<Word<'a>>
    ensures { result ≡ Arguments.only_word words.entry }
{
    let word = words.next()?;
    match words.next() {
        None => Some(word),
        Some(_more) => None,
    }
}

/// The one word left, if there is one, or `None` where more are left.
#[tactic(auto, unfolding(crate::specs::Arguments::last_word))]
pub fn last_word<'a>(mut words: Words<'a>) -> Option<Option<Word<'a>>>
    ensures { result ≡ Arguments.last_word words.entry }
{
    match words.next() {
        None => Some(None),
        Some(word) => match words.next() {
            None => Some(Some(word)),
            Some(_more) => None,
        },
    }
}

/// Whether no word is left.
pub fn is_end(mut words: Words<'_>) -> bool
    ensures { result ≡ Arguments.is_end words.entry }
{
    words.next().is_none()
}

/// A context alone. Its parts may be too long yet.
#[tactic(auto, unfolding(crate::specs::Arguments::only_context))]
pub fn only_context<'a>(words: Words<'a>) -> Option<ContextOf<Word<'a>>>
    ensures { result ≡ Arguments.only_context words.entry }
{
    let word = only_word(words)?;
    context_form(word.as_bytes())
}

/// Just one word. `Syntax` where there is another number of them.
#[tactic(auto, unfolding(crate::specs::Arguments::one_word))]
pub fn one_word<'a>(mut words: Words<'a>) -> Result<Word<'a>, FaultKind>
    ensures { result ≡ Arguments.one_word words.entry }
{
    let Some(word) = words.next() else {
        return Err(FaultKind::Syntax);
    };
    match words.next() {
        None => Ok(word),
        Some(_more) => Err(FaultKind::Syntax),
    }
}

/// Just two words. `Syntax` where there is another number of them.
#[tactic(auto, unfolding(crate::specs::Arguments::two_words))]
pub fn two_words<'a>(mut words: Words<'a>) -> Result<(Word<'a>, Word<'a>), FaultKind>
    ensures { result ≡ Arguments.two_words words.entry }
{
    let Some(first) = words.next() else {
        return Err(FaultKind::Syntax);
    };
    let Some(second) = words.next() else {
        return Err(FaultKind::Syntax);
    };
    match words.next() {
        None => Ok((first, second)),
        Some(_more) => Err(FaultKind::Syntax),
    }
}

/// Just three words. `Syntax` where there is another number of them.
#[tactic(auto, unfolding(crate::specs::Arguments::three_words))]
pub fn three_words<'a>(mut words: Words<'a>) -> Result<(Word<'a>, Word<'a>, Word<'a>), FaultKind>
    ensures { result ≡ Arguments.three_words words.entry }
{
    let Some(first) = words.next() else {
        return Err(FaultKind::Syntax);
    };
    let Some(second) = words.next() else {
        return Err(FaultKind::Syntax);
    };
    let Some(third) = words.next() else {
        return Err(FaultKind::Syntax);
    };
    match words.next() {
        None => Ok((first, second, third)),
        Some(_more) => Err(FaultKind::Syntax),
    }
}
