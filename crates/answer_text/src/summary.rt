//! The line of a summary.

ghost use Rattle.std.specs.Prelude.{◌≡◌, ◌++◌, OnOk, OnErr};
ghost use Rattle.text_print.specs.Printed.{ended};
ghost use Rattle.text_print.specs.Fronts.{IsFront};
ghost use Rattle.answer_text.specs.Summaries;

use flask_sid::{Memory, Text};
use text_print::{put_numeral, put_word};

/// Puts how many calls there were, how many of them were denied, and how many changes are complete, with the line end.
pub fn put_summary(out: &mut Text, calls: u64, denied: u64, changes: u64) -> Result<(), Memory>
    ensures ok { OnOk result (out.new ≡ out.old ++ ended (Summaries.summary_words calls denied changes)) }
    ensures err { OnErr result (IsFront out.old out.new) }
{
    out.extend(b"calls")?;
    put_numeral(out, calls)?;
    put_word(out, b"denied")?;
    put_numeral(out, denied)?;
    put_word(out, b"changes")?;
    put_numeral(out, changes)?;
    out.push(b'\n')
}
