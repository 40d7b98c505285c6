//! Printing of lines of words, as the readers of texts read them again.
//!
//! A text is a list of lines and a line a list of words, so that whoever prints says which words, and one set of
//! laws brings the words back.
#![tactic(auto)]

ghost use Rattle.std.specs.Prelude.{◌≡◌, ◌++◌, OnOk, OnErr, decimal};
ghost use Rattle.flask_sid.specs.Contexts.{context_text};
ghost use Rattle.text_print.specs.Printed;
ghost use Rattle.text_print.specs.Fronts.{IsFront};

use flask_sid::{Context, Memory, Sid, SidTable, Text};
use text_lines::put_number;

/// Puts a word behind a space.
#[inline(always)]
pub fn put_word(out: &mut Text, word: &[u8]) -> Result<(), Memory>
    ensures ok { OnOk result (out.new ≡ out.old ++ Printed.behind word.now) }
    ensures err { OnErr result (IsFront out.old out.new) }
{
    out.push(b' ')?;
    out.extend(word)
}

/// Puts a number behind a space, without leading zeros.
#[inline(always)]
pub fn put_numeral(out: &mut Text, number: u64) -> Result<(), Memory>
    ensures ok { OnOk result (out.new ≡ out.old ++ Printed.behind (decimal number)) }
    ensures err { OnErr result (IsFront out.old out.new) }
{
    out.push(b' ')?;
    put_number(out, number)
}

/// Puts a context behind a space.
#[tactic(auto, unfolding(flask_sid::specs::Contexts::context_text))]
#[inline(always)]
pub fn put_context(out: &mut Text, context: &Context) -> Result<(), Memory>
    ensures ok { OnOk result (out.new ≡ out.old ++ Printed.behind (context_text context.now)) }
    ensures err { OnErr result (IsFront out.old out.new) }
{
    out.push(b' ')?;
    out.extend(context.user.as_bytes())?;
    out.push(b':')?;
    out.extend(context.role.as_bytes())?;
    out.push(b':')?;
    out.extend(context.kind.as_bytes())
}

/// Puts the context of an identifier behind a space. A number that is none has a context of empty names.
#[tactic(auto, unfolding(flask_sid::specs::Contexts::context_text))]
#[inline(always)]
pub fn put_label(out: &mut Text, sids: &SidTable, sid: Sid) -> Result<(), Memory>
    ensures ok { OnOk result (out.new ≡ out.old ++ Printed.behind (context_text (Printed.context_with sids.now sid))) }
    ensures err { OnErr result (IsFront out.old out.new) }
{
    match sids.context(sid) {
        None => put_word(out, b"::"),
        Some(context) => put_context(out, context),
    }
}
