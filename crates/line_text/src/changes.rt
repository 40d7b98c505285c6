//! What the administrator is told, as words.

ghost use Rattle.std.specs.Prelude.{◌≡◌, ◌∷◌, [], ◌++◌, length, map, OnOk, OnErr, decimal};
ghost use Rattle.std.specs.List.{flat_map};
ghost use Rattle.text_print.specs.Printed.{behind};
ghost use Rattle.text_print.specs.Fronts.{IsFront};
ghost use Rattle.line_text.specs.Answers;

use change_protocol::{AckAll, NotifyAllFault, Said};
use flask_sid::{Memory, Text};
use session_managers::Acks;
use text_lines::put_number;
use text_print::{put_numeral, put_word};

/// Puts what a notice got.
#[inline(always)]
pub(crate) fn put_notice(out: &mut Text, said: &Result<u32, NotifyAllFault>) -> Result<(), Memory>
    ensures ok { OnOk result (out.new ≡ out.old ++ flat_map behind (Answers.notice_words said.now)) }
    ensures err { OnErr result (IsFront out.old out.new) }
{
    match said {
        Ok(number) => put_numbered(out, b"notified", *number),
        Err(NotifyAllFault::Pending(pending)) => put_numbered(out, b"pending", *pending),
        Err(NotifyAllFault::NoVersion) => put_word(out, b"noversion"),
        Err(NotifyAllFault::Spent) => put_word(out, b"spent"),
        Err(NotifyAllFault::Memory { .. }) => put_word(out, b"memory"),
    }
}

#[inline(always)]
fn put_numbered(out: &mut Text, word: &[u8], number: u32) -> Result<(), Memory>
    ensures ok { OnOk result (out.new ≡ out.old ++ flat_map behind (word.now ∷ decimal number ∷ [])) }
    ensures err { OnErr result (IsFront out.old out.new) }
{
    put_word(out, word)?;
    put_numeral(out, u64::from(number))
}

/// Puts what an update got.
pub(crate) fn put_updated(out: &mut Text, left: &[u64]) -> Result<(), Memory>
    ensures ok { OnOk result (out.new ≡ out.old ++ flat_map behind (Answers.updated_words left.now)) }
    ensures err { OnErr result (IsFront out.old out.new) }
{
    put_word(out, b"updated")?;
    put_numerals(out, left)
}

fn put_numerals(out: &mut Text, numbers: &[u64]) -> Result<(), Memory>
    ensures ok { OnOk result (out.new ≡ out.old ++ flat_map behind (map decimal numbers.now)) }
    ensures err { OnErr result (IsFront out.old out.new) }
{
    match numbers {
        [] => Ok(()),
        [number, rest @ ..] => {
            put_numeral(out, *number)?;
            put_numerals(out, rest)
        }
    }
}

/// Puts what an acknowledgement got.
pub(crate) fn put_acks(out: &mut Text, acks: &Acks) -> Result<(), Memory>
    ensures ok { OnOk result (out.new ≡ out.old ++ flat_map behind (Answers.acks_words acks.now)) }
    ensures err { OnErr result (IsFront out.old out.new) }
{
    match acks.all {
        AckAll::Idle => put_word(out, b"idle"),
        AckAll::Complete(number) => put_numbered(out, b"complete", number),
        AckAll::Waiting => {
            put_word(out, b"waiting")?;
            put_all_said(out, acks.said.as_slice())
        }
    }
}

fn put_all_said(out: &mut Text, said: &[Said]) -> Result<(), Memory>
    ensures ok { OnOk result (out.new ≡ out.old ++ flat_map behind (map Answers.said_word said.now)) }
    ensures err { OnErr result (IsFront out.old out.new) }
{
    match said {
        [] => Ok(()),
        [one, rest @ ..] => {
            put_said(out, one)?;
            put_all_said(out, rest)
        }
    }
}

/// Puts what a manager said.
#[inline(always)]
fn put_said(out: &mut Text, said: &Said) -> Result<(), Memory>
    ensures ok { OnOk result (out.new ≡ out.old ++ behind (Answers.said_word said.now)) }
    ensures err { OnErr result (IsFront out.old out.new) }
{
    match said {
        Said::Busy(older) => put_count(out, b"busy:", *older),
        Said::Behind(left) => put_count(out, b"behind:", *left),
        Said::Kept => put_word(out, b"kept"),
        Said::Idle => put_word(out, b"idle"),
    }
}

#[inline(always)]
fn put_count(out: &mut Text, why: &[u8], count: u64) -> Result<(), Memory>
    ensures ok { OnOk result (out.new ≡ out.old ++ behind (why.now ++ decimal count)) }
    ensures err { OnErr result (IsFront out.old out.new) }
{
    put_word(out, why)?;
    put_number(out, count)
}
