//! Notes on a text that is well formed: what its lines can hardly mean.

use crate::finding::{Finding, put_finding};
use crate::report::Report;
use crate::text::Text;
use crate::values::{Value, sentence};
use flask_sid::Memory;
use session_text::Run;
use std::alloc::Global;

/// Puts the notes on a text. Of a session: each notice of a version that the policy has not.
pub(crate) fn put_notes(
    alloc: Global,
    bytes: &[u8],
    text: &Text,
    out: &mut Report,
) -> Result<(), Memory> {
    let Text::Session(session) = text else {
        return Ok(());
    };
    let count = text.policy().parts().versions.len();
    'lines: for line in session.parts().lines.as_slice() {
        if let Run::Notify { ver } = &line.run {
            if usize::from(*ver) >= count {
                let what = no_version(alloc, *ver, count)?;
                let note = Finding::new("note", what.as_str());
                put_finding(&note.at_line(bytes, line.line), out)?;
            }
        }
    }
    Ok(())
}

/// What is said of a notice of a version that is not there.
fn no_version(alloc: Global, ver: u8, count: usize) -> Result<String, Memory> {
    let (some, alone) = if count == 1 {
        ("version ", " alone")
    } else {
        ("versions 0 to ", "")
    };
    sentence(
        alloc,
        &[
            Value::Text("the policy has no version "),
            Value::Number(u64::from(ver)),
            Value::Text(": it has "),
            Value::Text(some),
            Value::Number(count.saturating_sub(1) as u64),
            Value::Text(alone),
            Value::Text(", so the answer is noversion"),
        ],
    )
}
