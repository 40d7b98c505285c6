//! `check`: whether a text is well formed, and its policy one that may be used.

use crate::counting::put_counts;
use crate::finding::put_fault;
use crate::notes::put_notes;
use crate::refusing::put_refusals;
use crate::report::Report;
use crate::source::Source;
use crate::stop::Stop;
use crate::text::{Text, read_text};
use fault_causes::line_count;
use flask_sid::Memory;
use policy_versions::{CompileFault, compile};
use std::alloc::Global;
use std::mem::forget;
use text_lines::TextFault;

/// Answers `check`. The status is 1 where something is found.
pub(crate) fn check(alloc: Global, bytes: &[u8], out: &mut Report) -> Result<(), Stop> {
    match read_text(alloc, bytes) {
        Ok(text) => check_policy(alloc, bytes, &text, out),
        Err(TextFault::Memory) => Err(Stop::Memory),
        Err(TextFault::Text { line, kind }) => {
            out.begin(1)?;
            Ok(put_fault(alloc, bytes, line, kind, out)?)
        }
    }
}

/// Checks the policy of a text that can be read.
fn check_policy(alloc: Global, bytes: &[u8], text: &Text, out: &mut Report) -> Result<(), Stop> {
    let policy = text.policy();
    match compile(alloc, policy) {
        Ok(catalogue) => {
            // Kept to the end, as the text is.
            forget(catalogue);
            Ok(put_well_formed(alloc, bytes, text, out)?)
        }
        Err(CompileFault::Memory) => Err(Stop::Memory),
        Err(fault) => Ok(put_refusals(alloc, Source { bytes, policy }, fault, out)?),
    }
}

/// The counts of a text that is well formed, in one line, and behind them notes.
fn put_well_formed(
    alloc: Global,
    bytes: &[u8],
    text: &Text,
    out: &mut Report,
) -> Result<(), Memory> {
    out.begin(0)?;
    put_counts(text, line_count(bytes), out)?;
    out.begin_notes()?;
    put_notes(alloc, bytes, text, out)
}
