//! A line of a text, and where it ends.

ghost use Rattle.std.specs.Prelude.{◌≡◌, ◌≤◌, OnOk};
ghost use Rattle.std.specs.List.{list_all, position};
ghost use Rattle.text_lines.specs.Lines;

use crate::fault::FaultKind;
use crate::lines::Line;
use crate::words::{Words, behind_gaps, is_word_byte};
use memchr::memchr;

/// The greatest number that a line may have.
pub const LINE_LIMIT: u32 = 100_000;

/// Where the first line of a text ends, if it has a line end.
#[inline(always)]
pub(crate) fn line_end(bytes: &[u8]) -> Option<usize>
    ensures { result ≡ position Lines.is_line_end bytes.now }
{
    memchr(b'\n', bytes)
}

/// What a line of this number says: its words, or none where it is blank or a comment. `Limit` exactly for a
/// number past the limit, and else `Syntax` exactly for a byte that may not stand.
#[tactic(auto, unfolding(crate::specs::Lines::line_words))]
pub fn line_words<'a>(number: u32, line: &Line<'a>) -> Result<Words<'a>, FaultKind>
    ensures said { result ≡ Lines.line_words number line.now }
    ensures counted { OnOk result (number ≤ 100000) }
{
    if number > LINE_LIMIT {
        return Err(FaultKind::Limit);
    }
    if !line.may_stand() {
        return Err(FaultKind::Syntax);
    }
    Ok(said_words(line.as_bytes()))
}

pub(crate) fn may_all_stand(line: &[u8]) -> bool
    ensures { result ≡ list_all Lines.may_stand line.now }
{
    // It does not stop at a bad byte, since nearly every line has none: so many bytes are tested at once.
    let mut good = true;
    'bytes: for b in line {
        good &= may_stand(*b);
    }
    good
}

fn may_stand(b: u8) -> bool
    ensures { result ≡ Lines.may_stand b }
{
    is_word_byte(b) || b == b' ' || b == b'\t'
}

// The words of a line. A comment is told by the first byte that is no gap, so the first word is not cut for it.
fn said_words<'a>(line: &'a [u8]) -> Words<'a>
    ensures { result ≡ Lines.said_words (Lines.words_of line.now) }
{
    let rest = behind_gaps(line);
    match rest {
        [] => Words::none(),
        [first, ..] => {
            if *first == b'#' {
                Words::none()
            } else {
                Words::new(rest)
            }
        }
    }
}
