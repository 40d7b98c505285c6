//! The lines of a text, one after the other.

ghost use Rattle.std.specs.Prelude.{◌≡◌, [], ◌∷◌, MatchOption};
ghost use Rattle.std.specs.List.{list_all};
ghost use Rattle.text_lines.specs.Lines.{is_text_byte, lines_of, may_stand};

use crate::line::{line_end, may_all_stand};
use crate::words::is_word_byte;
use std::marker::Model;

/// A line of a text, by reference to it. It knows whether its bytes were tested with those of the whole text. Contracts see its bytes.
#[derive(Debug)]
pub struct Line<'a> {
    bytes: &'a [u8],
    stands: bool,
}

impl<'a> Model for Line<'a> {
    ghost use Rattle.std.specs.Prelude.{List, ℕ};
    ghost use Rattle.text_lines.specs.Lines.{MayStand};

    ghost Value = { List ℕ };

    ghost view = { λ line. line.bytes.now };

    ghost invariant = { λ line. MayStand line.stands line.bytes.now };
}

impl Drop for Line<'_> {
    fn drop(self) {
        let Line {
            bytes: _,
            stands: _,
        } = self;
    }
}

impl<'a> Line<'a> {
    /// A line of these bytes.
    pub fn of(bytes: &'a [u8]) -> Line<'a>
        ensures { result ≡ bytes.now }
    {
        Line {
            bytes,
            stands: false,
        }
    }

    /// The bytes of the line.
    pub fn as_bytes(&self) -> &'a [u8]
        ensures { result.now ≡ self.now }
    {
        self.bytes
    }

    /// Whether each byte may stand in a line.
    #[inline(always)]
    pub(crate) fn may_stand(&self) -> bool
        ensures { result ≡ list_all may_stand self.now }
    {
        self.stands || may_all_stand(self.bytes)
    }
}

/// The lines of a text that are still to come, by reference to it. Contracts see their list.
///
/// Nearly every text has no byte that may not stand in it. So all bytes are tested at once, and each line only where that test failed.
#[derive(Debug)]
pub struct Lines<'a> {
    rest: &'a [u8],
    stand: bool,
}

impl<'a> Model for Lines<'a> {
    ghost use Rattle.std.specs.Prelude.{List, ℕ};
    ghost use Rattle.text_lines.specs.Lines.{MayAllStand, lines_of};

    ghost Value = { List (List ℕ) };

    ghost view = { λ lines. lines_of lines.rest.now };

    ghost invariant = { λ lines. MayAllStand lines.stand (lines_of lines.rest.now) };
}

impl Drop for Lines<'_> {
    fn drop(self) {
        let Lines { rest: _, stand: _ } = self;
    }
}

impl<'a> Lines<'a> {
    /// The lines of a text.
    pub fn of(bytes: &'a [u8]) -> Lines<'a>
        ensures { result ≡ lines_of bytes.now }
    {
        Lines {
            rest: bytes,
            stand: is_text(bytes),
        }
    }

    /// Takes the first line off, or answers `None` where there is none.
    #[inline(always)]
    pub fn next(&mut self) -> Option<Line<'a>>
        ensures { MatchOption result ((self.old ≡ []) × (self.new ≡ []))
            (λ line. self.old ≡ line ∷ self.new) }
    {
        if self.rest.is_empty() {
            return None;
        }
        let stands = self.stand;
        match line_end(self.rest) {
            None => {
                let bytes = self.rest;
                self.rest = &[];
                Some(Line { bytes, stands })
            }
            Some(at) => {
                let (bytes, _) = self.rest.split_at(at);
                let (_, below) = self.rest.split_at(at + 1);
                self.rest = below;
                Some(Line { bytes, stands })
            }
        }
    }
}

// Whether each byte may stand in a line or ends one.
fn is_text(bytes: &[u8]) -> bool
    ensures { result ≡ list_all is_text_byte bytes.now }
{
    // It does not stop at a bad byte, so that many bytes are tested at once.
    let mut good = true;
    'bytes: for b in bytes {
        good &= is_text_byte(*b);
    }
    good
}

fn is_text_byte(b: u8) -> bool
    ensures { result ≡ is_text_byte b }
{
    is_word_byte(b) || b == b' ' || b == b'\t' || b == b'\n'
}
