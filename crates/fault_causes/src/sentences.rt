//! Sentences that are put together from parts.

use flask_sid::Memory;
use itoa::Buffer;
use std::alloc::Global;

/// Puts parts at the end of a text, one behind another.
pub fn put_all(out: &mut String, parts: &[&str]) -> Result<(), Memory> {
    'parts: for part in parts {
        out.push_str(*part)?;
    }
    Ok(())
}

/// Puts the digits of a number at the end of a text.
pub fn put_number(out: &mut String, number: u64) -> Result<(), Memory> {
    let mut buffer = Buffer::new();
    out.push_str(buffer.format(number))?;
    Ok(())
}

/// The text of these parts, one behind another.
pub fn joined(alloc: Global, parts: &[&str]) -> Result<String, Memory> {
    let mut text = String::new(alloc);
    put_all(&mut text, parts)?;
    Ok(text)
}

/// Puts names in a sentence: between two of them a comma, and `and` before the last.
pub fn put_listed(out: &mut String, names: &[&str]) -> Result<(), Memory> {
    'names: for (at, name) in names.iter().enumerate() {
        put_all(out, &[gap_before(at, names.len())])?;
        put_all(out, &[*name])?;
    }
    Ok(())
}

/// What stands before the name at a place of so many.
pub fn gap_before(at: usize, count: usize) -> &'static str {
    if at == 0 {
        ""
    } else if at.saturating_add(1) == count {
        " and "
    } else {
        ", "
    }
}
