//! Numbers in texts: read, and written as digits.

ghost use Rattle.std.specs.Prelude.{◌≡◌, ◌++◌, ◌<◌, ◌≤◌, ◌^◌, true, length, OnOk, OnErr, decimal};
ghost use Rattle.std.specs.List.{list_all};
ghost use Rattle.std.specs.Str.Parse.{digits_value};
ghost use Rattle.text_lines.specs.Numerals;

use flask_sid::{Memory, Text, Word};
use itoa::Buffer;

/// The number that a word of 1 to 10 digits is, which may begin with zeros, or `None` exactly where the word
/// is no such numeral.
#[tactic(auto, unfolding(crate::specs::Numerals::numeral_of))]
pub fn numeral(word: &Word<'_>) -> Option<u64>
    ensures { result ≡ Numerals.numeral_of word.now }
{
    let digits = word.as_bytes();
    if digits.is_empty() || digits.len() > 10 {
        return None;
    }
    value_of(digits)
}

/// Adds the decimal form of a number, without leading zeros. After `Memory` the text is as before.
pub fn put_number(out: &mut Text, number: u64) -> Result<(), Memory>
    ensures ok { OnOk result (out.new ≡ out.old ++ decimal number) }
    ensures err { OnErr result (out.new ≡ out.old) }
{
    // Most numbers that are printed have one digit, and need no buffer.
    if number < 10 {
        return out.push(b'0' + number as u8);
    }
    put_digits(out, number)
}

fn put_digits(out: &mut Text, number: u64) -> Result<(), Memory>
    ensures ok { OnOk result (out.new ≡ out.old ++ decimal number) }
    ensures err { OnErr result (out.new ≡ out.old) }
{
    let mut buffer = Buffer::new();
    out.extend(buffer.format(number).as_bytes())
}

fn is_digit(b: u8) -> bool
    ensures { result ≡ Numerals.is_digit b }
{
    b.is_ascii_digit()
}

// The number that digits are, or `None` where one of the bytes is no digit.
fn value_of(digits: &[u8]) -> Option<u64>
    requires { length digits.now ≤ 10 }
    ensures { result ≡ Numerals.value_of digits.now }
{
    let mut value = 0;
    'digits: for digit in digits {
        if !is_digit(*digit) {
            return None;
        }
        value = value * 10 + u64::from(*digit - b'0');
    }
    Some(value)
}
