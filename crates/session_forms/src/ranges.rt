//! Arguments past their limits: a number out of its range, a word that is too long.

ghost use Rattle.std.specs.Prelude.{◌≡◌};
ghost use Rattle.session_forms.specs.Ranges;

use flask_sid::Word;

/// The greatest number of bytes of a data word.
const DATA_LIMIT: usize = 1_024;

/// Whether this is no number of a port.
pub fn is_past_place(number: u64) -> bool
    ensures { result ≡ Ranges.is_past_place number }
{
    number == 0 || number > 65_535
}

/// Whether a data word is too long.
pub fn is_long_word(word: &Word<'_>) -> bool
    ensures { result ≡ Ranges.is_long_word word.now }
{
    word.as_bytes().len() > DATA_LIMIT
}

/// Whether there is a data word and it is too long.
pub fn is_long_data(bytes: &Option<Word<'_>>) -> bool
    ensures { result ≡ Ranges.is_long_data bytes.now }
{
    match bytes {
        None => false,
        Some(word) => is_long_word(word),
    }
}
