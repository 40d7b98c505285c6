//! The values of which answers are put together.

use fault_causes::{put_all, put_number};
use flask_sid::Memory;
use std::alloc::Global;

/// A value of an answer.
#[derive(Clone, Copy)]
pub(crate) enum Value<'t> {
    /// What there may be, and is not.
    Null,
    Truth(bool),
    Number(u64),
    Text(&'t str),
    Numbers(&'t [u8]),
    /// The bytes of a line, as they can be shown.
    Shown(&'t [u8]),
    /// The number of a line, with its text, or that there is none.
    By(Option<u32>, Option<&'t str>),
}

impl<'t> Value<'t> {
    /// A number that there may not be.
    pub(crate) fn of_number(number: Option<u32>) -> Value<'t> {
        match number {
            None => Value::Null,
            Some(number) => Value::Number(u64::from(number)),
        }
    }

    /// A text that there may not be.
    pub(crate) fn of_text(text: Option<&'t str>) -> Value<'t> {
        match text {
            None => Value::Null,
            Some(text) => Value::Text(text),
        }
    }
}

/// Puts values in a line, one behind another.
pub(crate) fn put_line(out: &mut String, values: &[Value<'_>]) -> Result<(), Memory> {
    'values: for value in values {
        put_in_line(out, *value)?;
    }
    Ok(())
}

/// The text of these values, one behind another.
pub(crate) fn sentence(alloc: Global, values: &[Value<'_>]) -> Result<String, Memory> {
    let mut text = String::new(alloc);
    put_line(&mut text, values)?;
    Ok(text)
}

fn put_in_line(out: &mut String, value: Value<'_>) -> Result<(), Memory> {
    match value {
        Value::Null => Ok(()),
        Value::Truth(yes) => put_all(out, &[if yes { "yes" } else { "no" }]),
        Value::Number(number) => put_number(out, number),
        Value::Text(text) => put_all(out, &[text]),
        Value::Numbers(numbers) => put_behind_spaces(out, numbers),
        Value::Shown(line) => put_shown(out, line),
        Value::By(None, _) => put_all(out, &["no line"]),
        Value::By(Some(line), text) => {
            put_all(out, &["line "])?;
            put_number(out, u64::from(line))?;
            put_all(out, &[": ", text.unwrap_or("")])
        }
    }
}

/// Puts each number behind a space.
fn put_behind_spaces(out: &mut String, numbers: &[u8]) -> Result<(), Memory> {
    'numbers: for number in numbers {
        put_all(out, &[" "])?;
        put_number(out, u64::from(*number))?;
    }
    Ok(())
}

/// Puts a line as it can be shown: each byte is one column.
fn put_shown(out: &mut String, line: &[u8]) -> Result<(), Memory> {
    'bytes: for b in line {
        out.push(char::from(shown(*b)))?;
    }
    Ok(())
}

/// A byte as it can be shown. A tab is shown as a space, and what is no ASCII as `?`.
pub(crate) fn shown(b: u8) -> u8 {
    match b {
        b'\t' => b' ',
        b' '..=b'~' => b,
        _ => b'?',
    }
}
