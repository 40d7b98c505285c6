//! The words as texts for the parser.

ghost use Rattle.std.specs.Prelude.{◌≡◌, true, false, IfOk, MatchOption};
ghost use Rattle.std.specs.List.{list_all};
ghost use Rattle.std.specs.Str.{is_utf8};
ghost use Rattle.command_line.specs.Arguments.{begins_with_dash, is_argument, texts};

use flask_sid::{Memory, Word};
use std::alloc::Global;

/// The words as texts for the parser, or `None` exactly where one of them is not UTF-8 or begins with `-`.
pub(crate) fn arguments<'a>(
    alloc: Global,
    words: &[Word<'a>],
) -> Result<Option<Vec<&'a str>>, Memory>
    ensures { IfOk result (λ found. MatchOption found (list_all is_argument words.now ≡ false)
        (λ list. (texts list.items ≡ words.now) × (list_all is_argument words.now ≡ true))) }
{
    let mut texts = Vec::new(alloc);
    'words: for word in words {
        match argument(word) {
            None => return Ok(None),
            Some(text) => texts.push(text)?,
        }
    }
    Ok(Some(texts))
}

#[tactic(auto, unfolding(crate::specs::Arguments::is_argument))]
fn argument<'a>(word: &Word<'a>) -> Option<&'a str>
    ensures { MatchOption result (is_argument word.now ≡ false)
        (λ text. (text.now ≡ word.now) × (is_argument word.now ≡ true)) }
{
    let bytes = word.as_bytes();
    if begins_with_dash(bytes) {
        return None;
    }
    text_of(bytes)
}

fn begins_with_dash(bytes: &[u8]) -> bool
    ensures { result ≡ begins_with_dash bytes.now }
{
    match bytes {
        [] => false,
        [first, ..] => *first == b'-',
    }
}

#[tactic(auto, using(crate::proofs::TextLemmas::is_text, crate::proofs::TextLemmas::is_no_text))]
fn text_of(bytes: &[u8]) -> Option<&str>
    ensures { MatchOption result (is_utf8 bytes.now ≡ false)
        (λ text. (text.now ≡ bytes.now) × (is_utf8 bytes.now ≡ true)) }
{
    match str::from_utf8(bytes) {
        Ok(text) => Some(text),
        Err(_) => None,
    }
}
