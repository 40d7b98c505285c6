//! What is found wrong with a text.

use crate::json::put_object;
use crate::report::{Form, Report};
use crate::text::is_session;
use crate::values::{Value, put_line};
use fault_causes::{Cause, Mark, explain, line_at, put_all};
use flask_sid::Memory;
use std::alloc::Global;
use text_lines::FaultKind;

/// A fault: the number of the line, the kind, the cause in one sentence, the line, the bytes at fault, the form of such
/// a line, and the known name that is nearest to an unknown one.
#[derive(Clone, Copy)]
pub(crate) struct Finding<'t> {
    pub(crate) line: Option<u32>,
    pub(crate) kind: &'static str,
    pub(crate) cause: &'t str,
    pub(crate) text: Option<&'t [u8]>,
    pub(crate) mark: Option<Mark>,
    pub(crate) form: Option<&'static str>,
    pub(crate) nearest: Option<&'t str>,
}

impl<'t> Finding<'t> {
    /// A finding with nothing shown below it.
    pub(crate) fn new(kind: &'static str, cause: &'t str) -> Finding<'t> {
        Finding {
            line: None,
            kind,
            cause,
            text: None,
            mark: None,
            form: None,
            nearest: None,
        }
    }

    /// The finding at a whole line.
    pub(crate) fn at_line(mut self, bytes: &'t [u8], line: u32) -> Finding<'t> {
        self.line = Some(line);
        self.text = line_at(bytes, line);
        self
    }

    /// The finding with what is told of a cause.
    fn with_cause(mut self, cause: &Cause<'t>) -> Finding<'t> {
        self.mark = cause.mark;
        self.form = cause.form;
        self.nearest = cause.nearest;
        self
    }
}

/// Puts a finding.
pub(crate) fn put_finding(found: &Finding<'_>, out: &mut Report) -> Result<(), Memory> {
    out.part("\n")?;
    match out.form {
        Form::Lines => put_lines(found, &mut out.text),
        Form::Json => put_json(found, &mut out.text),
    }
}

fn put_lines(found: &Finding<'_>, out: &mut String) -> Result<(), Memory> {
    if let Some(line) = found.line {
        put_line(
            out,
            &[
                Value::Text("line "),
                Value::Number(u64::from(line)),
                Value::Text(": "),
            ],
        )?;
    }
    put_all(out, &[found.kind, "\n  "])?;
    put_all(out, &[found.cause])?;
    if let Some(text) = found.text {
        put_line(out, &[Value::Text("\n  | "), Value::Shown(text)])?;
    }
    if let Some(mark) = found.mark {
        put_mark(out, mark)?;
    }
    if let Some(form) = found.form {
        put_all(out, &["\n  form: ", form])?;
    }
    match found.nearest {
        None => Ok(()),
        Some(name) => put_all(out, &["\n  did you mean ", name, "?"]),
    }
}

/// Marks the bytes at fault below the line.
fn put_mark(out: &mut String, mark: Mark) -> Result<(), Memory> {
    put_all(out, &["\n  | "])?;
    'spaces: for _ in 0..mark.from {
        put_all(out, &[" "])?;
    }
    'marks: for _ in 0..mark.length {
        put_all(out, &["^"])?;
    }
    Ok(())
}

/// Puts a finding as an object of JSON. Columns are counted from 1.
fn put_json(found: &Finding<'_>, out: &mut String) -> Result<(), Memory> {
    let (column, length) = match found.mark {
        None => (Value::Null, Value::Null),
        Some(mark) => (
            Value::Number(mark.from.saturating_add(1) as u64),
            Value::Number(mark.length as u64),
        ),
    };
    let text = match found.text {
        None => Value::Null,
        Some(text) => Value::Shown(text),
    };
    put_object(
        out,
        &[
            ("line", Value::of_number(found.line)),
            ("kind", Value::Text(found.kind)),
            ("cause", Value::Text(found.cause)),
            ("text", text),
            ("column", column),
            ("length", length),
            ("form", Value::of_text(found.form)),
            ("nearest", Value::of_text(found.nearest)),
        ],
    )
}

/// Puts the fault of a text that a reader refuses at a line.
pub(crate) fn put_fault(
    alloc: Global,
    bytes: &[u8],
    line: u32,
    kind: FaultKind,
    out: &mut Report,
) -> Result<(), Memory> {
    let cause = explain(alloc, bytes, line, kind, is_session(bytes))?;
    let found = Finding::new(kind_text(kind), cause.what.as_str());
    put_finding(&found.at_line(bytes, line).with_cause(&cause), out)
}

/// What is told of a text that a reader refuses at a line.
pub(crate) fn refused(
    alloc: Global,
    bytes: &[u8],
    line: u32,
    kind: FaultKind,
) -> Result<String, Memory> {
    let mut out = Report::new(alloc, Form::Lines);
    put_fault(alloc, bytes, line, kind, &mut out)?;
    Ok(out.text)
}

/// The name of a kind of fault, as `flaskd` tells it.
fn kind_text(kind: FaultKind) -> &'static str {
    match kind {
        FaultKind::Syntax => "syntax",
        FaultKind::Order => "order",
        FaultKind::Limit => "limit",
        FaultKind::Unknown => "unknown",
        FaultKind::Undeclared => "undeclared",
        FaultKind::Twice => "twice",
        FaultKind::Ended => "ended",
    }
}
