//! A text that is asked about, and the lines that answers cite.

use crate::finding::refused;
use crate::stop::Stop;
use crate::text::{Text, read_text};
use fault_causes::{line_at, text_of};
use policy_model::PolicyText;
use std::alloc::Global;
use std::mem::ManuallyDrop;
use text_lines::TextFault;

/// A policy with the bytes of its text.
#[derive(Clone, Copy)]
pub(crate) struct Source<'t> {
    pub(crate) bytes: &'t [u8],
    pub(crate) policy: &'t PolicyText,
}

impl<'t> Source<'t> {
    /// The text of a line of that number.
    pub(crate) fn line(&self, number: Option<u32>) -> Option<&'t str> {
        Some(text_of(line_at(self.bytes, number?)?))
    }
}

/// Reads a text, or tells what is wrong with it.
pub(crate) fn read_or_explain(alloc: Global, bytes: &[u8]) -> Result<ManuallyDrop<Text>, Stop> {
    match read_text(alloc, bytes) {
        Ok(text) => Ok(text),
        Err(TextFault::Memory) => Err(Stop::Memory),
        Err(TextFault::Text { line, kind }) => Err(Stop::Refused(refused(
            alloc, bytes, line, kind,
        )?)),
    }
}
