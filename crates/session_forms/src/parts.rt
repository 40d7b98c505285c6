//! Paths, as the texts write them.

ghost use Rattle.std.specs.Prelude.{◌≡◌, ◌≤◌, [], ◌∷◌, false, true, nat_lt, length, IfOk, MatchOption};
ghost use Rattle.std.specs.List.{list_all, list_any, slice_split};
ghost use Rattle.std.specs.Option.{option_map};
ghost use Rattle.flask_sid.specs.Names;
ghost use Rattle.file_calls.specs.Formed;
ghost use Rattle.file_calls.specs.Openings.{parent_of};
ghost use Rattle.session_forms.specs.PathForms;
ghost use Rattle.session_forms.specs.PathForms.{HasNoSlash, IsLastSlash, is_slash, parts_left};
ghost use Rattle.session_forms.specs.Arguments;

use file_calls::FilePath;
use flask_sid::{Memory, Piece, Word, cut};
use std::alloc::Global;
use std::marker::Model;

/// The greatest number of parts of a path.
const PART_LIMIT: usize = 16;

/// The parts of a path that are still to come, by reference to its text. Contracts see their list.
#[derive(Debug)]
pub struct Parts<'a> {
    rest: Option<&'a [u8]>,
}

impl<'a> Model for Parts<'a> {
    ghost use Rattle.std.specs.Prelude.{List, ℕ};
    ghost use Rattle.std.specs.Option.{option_map};
    ghost use Rattle.session_forms.specs.PathForms.{parts_left};

    ghost Value = { List (List ℕ) };

    ghost view = { λ parts. parts_left (option_map (λ r. r.now) parts.rest) };
}

impl Drop for Parts<'_> {
    fn drop(self) {
        let Parts { rest: _ } = self;
    }
}

impl<'a> Parts<'a> {
    /// The parts of what stands behind the first `/` of a path.
    fn behind(bytes: &'a [u8]) -> Parts<'a>
        ensures { result ≡ PathForms.parts_behind bytes.now }
    {
        match bytes {
            [] => Parts { rest: None },
            [_first, ..] => Parts { rest: Some(bytes) },
        }
    }

    /// The same parts again.
    pub fn again(&self) -> Parts<'a>
        ensures { result ≡ self.now }
    {
        Parts { rest: self.rest }
    }

    /// The next part, or `None` where none is left.
    #[inline(always)]
    fn next(&mut self) -> Option<&'a [u8]>
        ensures { MatchOption result ((self.old ≡ []) × (self.new ≡ []))
            (λ part. self.old ≡ part.now ∷ self.new) }
    {
        match self.rest {
            None => None,
            Some(rest) => match cut(rest, b'/') {
                None => {
                    self.rest = None;
                    Some(rest)
                }
                Some((part, more)) => {
                    self.rest = Some(more);
                    Some(part)
                }
            },
        }
    }

    /// The text of the path behind its first `/`, or `None` for the root.
    pub(crate) fn text(&self) -> Option<Word<'a>>
        ensures { MatchOption result (self.now ≡ []) (λ text. self.now ≡ slice_split PathForms.is_slash text) }
    {
        match self.rest {
            None => None,
            Some(rest) => Some(Word::new(rest)),
        }
    }

    /// The path of the directory in which this path stands, and for the root the root.
    pub fn above(&self) -> Parts<'a>
        ensures { result ≡ parent_of self.now }
    {
        match self.rest {
            None => Parts { rest: None },
            Some(rest) => Parts {
                rest: text_above(rest),
            },
        }
    }

    /// Whether each part would be a part of a path but for its length.
    #[inline(always)]
    fn are_part_forms(&self) -> bool
        ensures { result ≡ list_all PathForms.is_part_form self.now }
    {
        let mut parts = self.again();
        'parts: while let Some(part) = parts.next() {
            if !is_part_form(part) {
                return false;
            }
        }
        true
    }

    /// Whether the path is the root's.
    pub fn is_root(&self) -> bool
        ensures { result ≡ Arguments.is_root self.now }
    {
        let mut parts = self.again();
        parts.next().is_none()
    }

    /// Whether there are more parts than a path may have, or a part is too long.
    #[tactic(auto, unfolding(crate::specs::PathForms::is_long_path))]
    pub fn is_long(&self) -> bool
        ensures { result ≡ PathForms.is_long_path self.now }
    {
        !self.is_short() && (self.are_many() || self.has_long_part())
    }

    /// Whether the text is so short that no part of it is too long, and no more parts than a path may have.
    #[tactic(auto, using(crate::proofs::ShortLemmas::short_path), unfolding(crate::specs::PathForms::is_long_path))]
    fn is_short(&self) -> bool
        ensures { result ≡ true → PathForms.is_long_path self.now ≡ false }
    {
        match self.rest {
            None => true,
            Some(rest) => rest.len() < PART_LIMIT,
        }
    }

    /// Whether there are more parts than a path may have.
    fn are_many(&self) -> bool
        ensures { result ≡ nat_lt 16 (length self.now) }
    {
        let mut parts = self.again();
        for at in 0..PART_LIMIT {
            let Some(_part) = parts.next() else {
                return false;
            };
        }
        match parts.next() {
            None => false,
            Some(_part) => true,
        }
    }

    fn has_long_part(&self) -> bool
        ensures { result ≡ list_any Names.is_long self.now }
    {
        let mut parts = self.again();
        'parts: while let Some(part) = parts.next() {
            if Word::new(part).is_long() {
                return true;
            }
        }
        false
    }

    /// How many parts there are, and at most as many as a path may have.
    fn count(&self) -> usize
        ensures { result ≤ length self.now }
    {
        let mut parts = self.again();
        for at in 0..PART_LIMIT {
            let Some(_part) = parts.next() else {
                return at;
            };
        }
        PART_LIMIT
    }

    /// A kept copy of the path.
    #[inline(always)]
    pub fn kept(&self, alloc: Global) -> Result<FilePath, Memory>
        ensures { IfOk result (λ path. path ≡ self.now) }
    {
        let mut path = FilePath::with_room(alloc, self.count())?;
        let mut parts = self.again();
        'parts: while let Some(part) = parts.next() {
            path.push(Piece::of(alloc, part)?)?;
        }
        Ok(path)
    }
}

/// The parts of a word that is a path but for its length and theirs, or `None` where it is none.
#[tactic(auto, unfolding(crate::specs::PathForms::path_form))]
#[inline(always)]
pub fn path_form<'a>(word: &Word<'a>) -> Option<Parts<'a>>
    ensures { result ≡ PathForms.path_form word.now }
{
    match word.as_bytes() {
        [] => None,
        [first, rest @ ..] => {
            if *first != b'/' {
                return None;
            }
            let parts = Parts::behind(rest);
            if parts.are_part_forms() {
                Some(parts)
            } else {
                None
            }
        }
    }
}

#[tactic(auto, unfolding(crate::specs::PathForms::is_part_form))]
#[inline(always)]
fn is_part_form(part: &[u8]) -> bool
    ensures { result ≡ PathForms.is_part_form part.now }
{
    !part.is_empty() && are_part_bytes(part) && part != b".".as_slice() && part != b"..".as_slice()
}

fn are_part_bytes(part: &[u8]) -> bool
    ensures { result ≡ list_all Formed.is_path_byte part.now }
{
    part.iter().all(|b| is_path_byte(*b))
}

fn is_path_byte(b: u8) -> bool
    ensures { result ≡ Formed.is_path_byte b }
{
    b.is_ascii_lowercase()
        || b.is_ascii_uppercase()
        || b.is_ascii_digit()
        || b == b'.'
        || b == b'_'
        || b == b'-'
}

// The text of a path without its last part, or `None` where that is the only one.
fn text_above(text: &[u8]) -> Option<&[u8]>
    ensures { parts_left (option_map (λ front. front.now) result) ≡ parent_of (slice_split is_slash text.now) }
{
    match last_slash(text) {
        None => None,
        Some(at) => {
            let (front, _back) = text.split_at(at);
            Some(front)
        }
    }
}

// The place of the last `/` of a text.
fn last_slash(text: &[u8]) -> Option<usize>
    ensures { MatchOption result (HasNoSlash text.now) (IsLastSlash text.now) }
{
    let mut at = text.len();
    'bytes: while at > 0 {
        at -= 1;
        if text[at] == b'/' {
            return Some(at);
        }
    }
    None
}
