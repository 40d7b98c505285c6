//! The lines of a text and the words of a line, with the columns where they stand.

use flask_sid::Memory;
use std::alloc::Global;
use text_lines::Words;

/// A word of a line.
#[derive(Clone, Copy)]
pub(crate) struct Span<'a> {
    pub(crate) text: &'a str,
    /// The column of its first byte, counted from 0.
    pub(crate) from: usize,
}

/// The lines of a text, one after another. What stands behind the last line end is a line where it is not empty.
#[derive(Drop)]
pub struct Lines<'a> {
    rest: text_lines::Lines<'a>,
}

impl<'a> Lines<'a> {
    /// The lines of a text from the first one on.
    pub fn new(bytes: &'a [u8]) -> Lines<'a> {
        Lines {
            rest: text_lines::Lines::of(bytes),
        }
    }

    /// The next line, or `None` behind the last one.
    pub fn next(&mut self) -> Option<&'a [u8]> {
        Some(self.rest.next()?.as_bytes())
    }
}

/// The line of a number, counted from 1, or `None` where the text has no such line.
pub fn line_at(bytes: &[u8], number: u32) -> Option<&[u8]> {
    let mut lines = Lines::new(bytes);
    'above: for _ in 1..number {
        lines.next()?;
    }
    lines.next()
}

/// How many lines a text has.
pub fn line_count(bytes: &[u8]) -> usize {
    let mut lines = Lines::new(bytes);
    let mut count = 0usize;
    'lines: for _ in 0..bytes.len() {
        if lines.next().is_some() {
            count = count.saturating_add(1);
        }
    }
    count
}

/// The lines below one of these numbers and above the other, each with its own number.
pub(crate) fn lines_between<'a>(
    alloc: Global,
    bytes: &'a [u8],
    above: u32,
    below: u32,
) -> Result<Vec<(u32, &'a [u8])>, Memory> {
    let mut found = Vec::new(alloc);
    let mut lines = Lines::new(bytes);
    'lines: for number in 1..below {
        let Some(line) = lines.next() else {
            break 'lines;
        };
        if above < number {
            found.push((number, line))?;
        }
    }
    Ok(found)
}

/// The words of a line, where they stand.
pub(crate) fn spans<'a>(alloc: Global, line: &'a [u8]) -> Result<Vec<Span<'a>>, Memory> {
    let mut found = Vec::new(alloc);
    let mut begun = None;
    'bytes: for (at, b) in line.iter().enumerate() {
        let is_word = b.is_ascii_graphic();
        match begun {
            None => if is_word {
                begun = Some(at);
            },
            Some(from) => if !is_word {
                found.push(span_between(line, from, at))?;
                begun = None;
            },
        }
    }
    if let Some(from) = begun {
        found.push(span_between(line, from, line.len()))?;
    }
    Ok(found)
}

fn span_between(line: &[u8], from: usize, to: usize) -> Span<'_> {
    Span {
        text: text_of(line.get(from..to).unwrap_or(&[])),
        from,
    }
}

/// The word at a place of a line, counted from 0, or no letters where the line has none there.
pub(crate) fn word_at(line: &[u8], place: usize) -> &str {
    let mut words = Words::new(line);
    'words: for _ in 0..place {
        if words.next().is_none() {
            return "";
        }
    }
    match words.next() {
        None => "",
        Some(word) => text_of(word.as_bytes()),
    }
}

/// Bytes as text. Bytes that are no UTF-8 are not shown.
pub fn text_of(bytes: &[u8]) -> &str {
    str::from_utf8(bytes).unwrap_or("?")
}
