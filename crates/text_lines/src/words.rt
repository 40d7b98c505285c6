//! The words of a line.

ghost use Rattle.std.specs.Prelude.{◌≡◌, ◌≤◌, [], ◌∷◌, MatchOption, length, true};
ghost use Rattle.std.specs.List.{All, position_or_len};
ghost use Rattle.text_lines.specs.Lines.{begins_word, is_filled, is_gap, is_word_byte, words_of};

use flask_sid::Word;
use std::marker::Model;

/// The words of a line that are still to come, by reference to the line. Contracts see them as their list.
#[derive(Debug)]
pub struct Words<'a> {
    rest: &'a [u8],
}

impl<'a> Model for Words<'a> {
    ghost use Rattle.std.specs.Prelude.{List, ℕ};
    ghost use Rattle.text_lines.specs.Lines.{words_of};

    ghost Value = { List (List ℕ) };

    ghost view = { λ words. words_of words.rest.now };
}

impl Drop for Words<'_> {
    fn drop(self) {
        let Words { rest: _ } = self;
    }
}

impl<'a> Words<'a> {
    /// The words of a line.
    pub fn new(line: &'a [u8]) -> Words<'a>
        ensures { result ≡ words_of line.now }
    {
        Words { rest: line }
    }

    /// No words.
    #[tactic(auto, unfolding(crate::specs::Lines::words_of))]
    pub fn none() -> Words<'a>
        ensures { result ≡ [] }
    {
        Words { rest: &[] }
    }

    /// The same words again.
    pub fn again(&self) -> Words<'a>
        ensures { result ≡ self.now }
    {
        Words { rest: self.rest }
    }

    /// Whether the bytes that are left are so few that no word has more than `most`. Where they are more, that is not known.
    pub fn are_within(&self, most: usize) -> bool
        ensures { result ≡ true → All (λ word. length word ≤ most) self.now }
    {
        self.rest.len() <= most
    }

    /// Takes the first word off, or answers `None` where there is none.
    #[inline(always)]
    pub fn next(&mut self) -> Option<Word<'a>>
        ensures { MatchOption result ((self.old ≡ []) × (self.new ≡ []))
            (λ word. self.old ≡ word ∷ self.new) }
    {
        match split_word(self.rest) {
            None => None,
            Some((word, rest)) => {
                self.rest = rest;
                Some(Word::new(word))
            }
        }
    }
}

/// Whether words are made of this byte.
pub fn is_word_byte(b: u8) -> bool
    ensures { result ≡ is_word_byte b }
{
    b.is_ascii_graphic()
}

fn is_gap(b: u8) -> bool
    ensures { result ≡ is_gap b }
{
    !is_word_byte(b)
}

// How many bytes the word has with which these begin.
#[inline(always)]
fn word_length(bytes: &[u8]) -> usize
    requires { begins_word bytes.now ≡ true }
    ensures value { result ≡ position_or_len is_gap bytes.now }
    ensures within { result ≤ length bytes.now }
{
    // The first byte is one of it.
    let mut at = 1;
    'bytes: while at < bytes.len() {
        if is_gap(bytes[at]) {
            return at;
        }
        at += 1;
    }
    at
}

// The word with which the bytes begin, and what stands behind the gap that ends it.
#[inline(always)]
fn first_word(bytes: &[u8]) -> (&[u8], &[u8])
    requires { begins_word bytes.now ≡ true }
    ensures { words_of bytes.now ≡ result.0.now ∷ words_of result.1.now }
{
    let length = word_length(bytes);
    let (word, _) = bytes.split_at(length);
    let (_, rest) = bytes.split_at(bytes.len().min(length + 1));
    (word, rest)
}

// The first word of the bytes and what stands behind it, or `None` where there is no word.
#[inline(always)]
fn split_word(bytes: &[u8]) -> Option<(&[u8], &[u8])>
    ensures { MatchOption result (words_of bytes.now ≡ [])
        (λ parts. words_of bytes.now ≡ parts.0.now ∷ words_of parts.1.now) }
{
    let rest = behind_gaps(bytes);
    if rest.is_empty() {
        None
    } else {
        Some(first_word(rest))
    }
}

/// The bytes from the first word on, or none where there is no word.
#[inline(always)]
pub(crate) fn behind_gaps(bytes: &[u8]) -> &[u8]
    ensures words { words_of result.now ≡ words_of bytes.now }
    ensures begins { begins_word result.now ≡ is_filled result.now }
{
    let mut rest = bytes;
    'gaps: while !rest.is_empty() {
        if is_word_byte(rest[0]) {
            return rest;
        }
        let (_, after) = rest.split_at(1);
        rest = after;
    }
    rest
}
