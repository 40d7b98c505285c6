//! The types of a call's arguments: each reads a word to its value, or tells what is wrong with the word.

ghost use Rattle.std.specs.Prelude.{◌≡◌, ◌≤◌, IfOk};
ghost use Rattle.session_forms.specs.ArgumentTypes;

use crate::parts::{Parts, path_form};
use crate::ranges::is_long_word;
use access_vectors::Vector;
use flask_sid::Word;
use text_lines::{FaultKind, numeral};

/// A numeral from `least` to `most`. `Syntax` where the word is none, `Limit` where it is out of this range.
#[tactic(auto, unfolding(crate::specs::ArgumentTypes::number_of))]
#[inline(always)]
fn number_of(least: u64, most: u64, word: &Word<'_>) -> Result<u64, FaultKind>
    ensures value { result ≡ ArgumentTypes.number_of least most word.now }
    ensures within { IfOk result (λ number. number ≤ most) }
{
    match numeral(word) {
        None => Err(FaultKind::Syntax),
        Some(number) => {
            if number < least || number > most {
                Err(FaultKind::Limit)
            } else {
                Ok(number)
            }
        }
    }
}

/// A slot, 0 to 63.
pub fn slot_of(word: &Word<'_>) -> Result<u8, FaultKind>
    ensures { result ≡ ArgumentTypes.slot_of word.now }
{
    let slot = number_of(0, 63, word)?;
    Ok(slot as u8)
}

/// Where a read or a write begins, 0 to 65,536.
pub fn offset_of(word: &Word<'_>) -> Result<u32, FaultKind>
    ensures { result ≡ ArgumentTypes.offset_of word.now }
{
    let offset = number_of(0, 65_536, word)?;
    Ok(offset as u32)
}

/// How many bytes a read takes at most, 1 to 1,024.
pub fn length_of(word: &Word<'_>) -> Result<u32, FaultKind>
    ensures { result ≡ ArgumentTypes.length_of word.now }
{
    let length = number_of(1, 1_024, word)?;
    Ok(length as u32)
}

/// How many names are skipped, 0 to 4,096.
pub fn skip_of(word: &Word<'_>) -> Result<u32, FaultKind>
    ensures { result ≡ ArgumentTypes.skip_of word.now }
{
    let skip = number_of(0, 4_096, word)?;
    Ok(skip as u32)
}

/// The number of a process, 1 to 65,535.
pub fn pid_of(word: &Word<'_>) -> Result<u32, FaultKind>
    ensures { result ≡ ArgumentTypes.pid_of word.now }
{
    let pid = number_of(1, 65_535, word)?;
    Ok(pid as u32)
}

/// A signal, 1 to 64.
pub fn signal_of(word: &Word<'_>) -> Result<u32, FaultKind>
    ensures { result ≡ ArgumentTypes.signal_of word.now }
{
    let signal = number_of(1, 64, word)?;
    Ok(signal as u32)
}

/// The code with which a process ends, 0 to 255.
pub fn code_of(word: &Word<'_>) -> Result<u32, FaultKind>
    ensures { result ≡ ArgumentTypes.code_of word.now }
{
    let code = number_of(0, 255, word)?;
    Ok(code as u32)
}

/// A value of 32 bits.
pub fn value_of(word: &Word<'_>) -> Result<u32, FaultKind>
    ensures { result ≡ ArgumentTypes.value_of word.now }
{
    let value = number_of(0, 4_294_967_295, word)?;
    Ok(value as u32)
}

/// The number of a port, 1 to 65,535.
pub fn port_of(word: &Word<'_>) -> Result<u32, FaultKind>
    ensures { result ≡ ArgumentTypes.port_of word.now }
{
    let port = number_of(1, 65_535, word)?;
    Ok(port as u32)
}

/// The version that the administrator chooses, 0 to 255.
pub fn version_of(word: &Word<'_>) -> Result<u8, FaultKind>
    ensures { result ≡ ArgumentTypes.version_of word.now }
{
    let version = number_of(0, 255, word)?;
    Ok(version as u8)
}

/// A datum: any word of at most 1,024 bytes, else `Limit`.
pub fn datum_of<'a>(word: Word<'a>) -> Result<Word<'a>, FaultKind>
    ensures { result ≡ ArgumentTypes.datum_of word.entry }
{
    if is_long_word(&word) {
        Err(FaultKind::Limit)
    } else {
        Ok(word)
    }
}

/// A path. `Syntax` where the word is none, `Limit` where it has too many parts or one that is too long.
#[tactic(auto, unfolding(crate::specs::ArgumentTypes::path_of))]
pub fn path_of<'a>(word: &Word<'a>) -> Result<Parts<'a>, FaultKind>
    ensures { result ≡ ArgumentTypes.path_of word.now }
{
    match path_form(word) {
        None => Err(FaultKind::Syntax),
        Some(path) => {
            if path.is_long() {
                Err(FaultKind::Limit)
            } else {
                Ok(path)
            }
        }
    }
}

/// A path below the root. `Syntax` where the word is none, `Limit` where it is too long.
#[tactic(auto, unfolding(crate::specs::ArgumentTypes::entry_of))]
pub fn entry_of<'a>(word: &Word<'a>) -> Result<Parts<'a>, FaultKind>
    ensures { result ≡ ArgumentTypes.entry_of word.now }
{
    let path = path_of(word)?;
    if path.is_root() {
        Err(FaultKind::Syntax)
    } else {
        Ok(path)
    }
}

/// The mode of an open file: its permissions read, write and append.
#[tactic(auto, unfolding(crate::specs::ArgumentTypes::mode_of))]
pub fn mode_of(word: &Word<'_>) -> Result<Vector, FaultKind>
    ensures { result ≡ ArgumentTypes.mode_of word.now }
{
    if word.is(b"r") {
        return Ok(Vector::of(1));
    }
    if word.is(b"w") {
        return Ok(Vector::of(2));
    }
    if word.is(b"a") {
        return Ok(Vector::of(4));
    }
    if word.is(b"rw") {
        return Ok(Vector::of(3));
    }
    if word.is(b"ra") {
        return Ok(Vector::of(5));
    }
    if word.is(b"wa") {
        return Ok(Vector::of(6));
    }
    if word.is(b"rwa") {
        return Ok(Vector::of(7));
    }
    Err(FaultKind::Syntax)
}

/// The mode of a bound port: its permissions name_bind and recv.
#[tactic(auto, unfolding(crate::specs::ArgumentTypes::bind_mode_of))]
pub fn bind_mode_of(word: &Word<'_>) -> Result<Vector, FaultKind>
    ensures { result ≡ ArgumentTypes.bind_mode_of word.now }
{
    if word.is(b"b") {
        return Ok(Vector::of(1));
    }
    if word.is(b"br") {
        return Ok(Vector::of(3));
    }
    Err(FaultKind::Syntax)
}

/// The mode of a connection: its permissions connect and send.
#[tactic(auto, unfolding(crate::specs::ArgumentTypes::connect_mode_of))]
pub fn connect_mode_of(word: &Word<'_>) -> Result<Vector, FaultKind>
    ensures { result ≡ ArgumentTypes.connect_mode_of word.now }
{
    if word.is(b"c") {
        return Ok(Vector::of(8));
    }
    if word.is(b"cs") {
        return Ok(Vector::of(12));
    }
    Err(FaultKind::Syntax)
}
