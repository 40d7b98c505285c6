//! Values as JSON.

use crate::values::{Value, shown};
use fault_causes::{put_all, put_number};
use flask_sid::Memory;

/// Puts an object with these members, by name and value.
pub(crate) fn put_object(
    out: &mut String,
    members: &[(&'static str, Value<'_>)],
) -> Result<(), Memory> {
    let mut gap = "{\"";
    'members: for (name, value) in members {
        put_all(out, &[gap])?;
        put_all(out, &[*name, "\":"])?;
        put_value(out, value)?;
        gap = ",\"";
    }
    put_all(out, &["}"])
}

fn put_value(out: &mut String, value: &Value<'_>) -> Result<(), Memory> {
    match value {
        Value::Null => put_all(out, &["null"]),
        Value::Truth(yes) => put_all(out, &[if *yes { "true" } else { "false" }]),
        Value::Number(number) => put_number(out, *number),
        Value::Text(text) => put_text(out, *text),
        Value::Numbers(numbers) => put_numbers(out, *numbers),
        Value::Shown(line) => put_shown(out, *line),
        Value::By(None, _) => put_all(out, &["null"]),
        Value::By(Some(line), _) => put_number(out, u64::from(*line)),
    }
}

fn put_numbers(out: &mut String, numbers: &[u8]) -> Result<(), Memory> {
    put_all(out, &["["])?;
    let mut gap = "";
    'numbers: for number in numbers {
        put_all(out, &[gap])?;
        put_number(out, u64::from(*number))?;
        gap = ",";
    }
    put_all(out, &["]"])
}

fn put_text(out: &mut String, text: &str) -> Result<(), Memory> {
    put_all(out, &["\""])?;
    'bytes: for b in text.as_bytes() {
        put_byte(out, *b)?;
    }
    put_all(out, &["\""])
}

fn put_shown(out: &mut String, line: &[u8]) -> Result<(), Memory> {
    put_all(out, &["\""])?;
    'bytes: for b in line {
        put_byte(out, shown(*b))?;
    }
    put_all(out, &["\""])
}

/// Puts a byte of a text. A text has the bytes 32 to 126 and tabs alone, and any other is put as `?`.
fn put_byte(out: &mut String, b: u8) -> Result<(), Memory> {
    match b {
        b'"' => put_all(out, &["\\\""]),
        b'\\' => put_all(out, &["\\\\"]),
        b'\t' => put_all(out, &["\\t"]),
        _ => put_char(out, char::from(shown(b))),
    }
}

fn put_char(out: &mut String, c: char) -> Result<(), Memory> {
    out.push(c)?;
    Ok(())
}
