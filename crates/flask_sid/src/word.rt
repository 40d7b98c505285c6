//! Words of a text, and which of them are names.

ghost use Rattle.std.specs.Prelude.{◌≡◌, ◌==◌, [], ◌∷◌, MatchOption};
ghost use Rattle.std.specs.List.{list_all, position, slice_split};
ghost use Rattle.std.specs.Str.{bytes_eq};
ghost use Rattle.flask_sid.specs.Names;

use std::marker::Model;

/// A word of a text, by reference to the text, which contracts see as the list of its bytes.
#[derive(Debug)]
pub struct Word<'a> {
    bytes: &'a [u8],
}

impl<'a> Model for Word<'a> {
    ghost use Rattle.std.specs.Prelude.{List, ℕ};

    ghost Value = { List ℕ };

    ghost view = { λ word. word.bytes.now };
}

impl Drop for Word<'_> {
    fn drop(self) {
        let Word { bytes: _ } = self;
    }
}

impl<'a> Word<'a> {
    /// The word of these bytes.
    pub fn new(bytes: &'a [u8]) -> Word<'a>
        ensures { result ≡ bytes.now }
    {
        Word { bytes }
    }

    /// The same word again.
    pub fn again(&self) -> Word<'a>
        ensures { result ≡ self.now }
    {
        Word { bytes: self.bytes }
    }

    /// The bytes of the word.
    pub fn as_bytes(&self) -> &'a [u8]
        ensures { result.now ≡ self.now }
    {
        self.bytes
    }

    /// Whether the word is made of these bytes.
    #[inline(always)]
    pub fn is(&self, bytes: &[u8]) -> bool
        ensures { result ≡ bytes_eq self.now bytes.now }
    {
        // Byte by byte, since the bytes are mostly a literal: then no loop is left.
        if self.bytes.len() != bytes.len() {
            return false;
        }
        let mut at = 0;
        'bytes: while at < bytes.len() {
            if self.bytes[at] != bytes[at] {
                return false;
            }
            at += 1;
        }
        true
    }

    /// Whether the word would be a name but for its length: a lower-case letter, then lower-case letters,
    /// digits and `_`.
    #[tactic(auto, unfolding(crate::specs::Names::is_name_form))]
    pub fn is_name_form(&self) -> bool
        ensures { result ≡ Names.is_name_form self.now }
    {
        match self.bytes {
            [] => false,
            [first, rest @ ..] => is_lower(*first) && are_name_bytes(rest),
        }
    }

    /// Whether the word has more than the 32 bytes that a name may have.
    #[tactic(auto, unfolding(crate::specs::Names::is_long))]
    pub fn is_long(&self) -> bool
        ensures { result ≡ Names.is_long self.now }
    {
        self.bytes.len() > 32
    }

    /// Whether the word is a name.
    #[tactic(auto, unfolding(crate::specs::Names::is_name))]
    pub fn is_name(&self) -> bool
        ensures { result ≡ Names.is_name self.now }
    {
        self.is_name_form() && !self.is_long()
    }

    /// Whether the word is `self`, which names no type and no attribute.
    #[tactic(auto, unfolding(crate::specs::Names::is_self))]
    pub fn is_self(&self) -> bool
        ensures { result ≡ Names.is_self self.now }
    {
        self.bytes == b"self".as_slice()
    }

    /// Whether the word would name a type but for its length.
    #[tactic(auto, unfolding(crate::specs::Names::is_kind_form))]
    pub fn is_kind_form(&self) -> bool
        ensures { result ≡ Names.is_kind_form self.now }
    {
        self.is_name_form() && !self.is_self()
    }
}

fn is_lower(b: u8) -> bool
    ensures { result ≡ Names.is_lower b }
{
    b.is_ascii_lowercase()
}

fn is_name_byte(b: u8) -> bool
    ensures { result ≡ Names.is_name_byte b }
{
    is_lower(b) || b.is_ascii_digit() || b == b'_'
}

fn are_name_bytes(bytes: &[u8]) -> bool
    ensures { result ≡ list_all Names.is_name_byte bytes.now }
{
    bytes.iter().all(|b| is_name_byte(*b))
}

fn place_of(bytes: &[u8], end: u8) -> Option<usize>
    ensures { result ≡ position (λ b. b == end) bytes.now }
{
    bytes.iter().position(|b| *b == end)
}

/// The bytes before the first `end`, and those behind it, or `None` where there is no such byte.
pub fn cut(bytes: &[u8], end: u8) -> Option<(&[u8], &[u8])>
    ensures { MatchOption result (slice_split (λ b. b == end) bytes.now ≡ bytes.now ∷ [])
        (λ parts. slice_split (λ b. b == end) bytes.now
        ≡ parts.0.now ∷ slice_split (λ b. b == end) parts.1.now) }
{
    match place_of(bytes, end) {
        None => None,
        Some(at) => {
            let (before, _) = bytes.split_at(at);
            let (_, after) = bytes.split_at(at + 1);
            Some((before, after))
        }
    }
}
