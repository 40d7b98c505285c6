//! The lines of a session that can be asked for: its clients' calls.

use crate::values::{Value, put_line, sentence};
use fault_causes::{gap_before, line_count, put_all};
use flask_sid::Memory;
use session_questions::LineRun;
use std::alloc::Global;

/// How many lines are named one by one.
const NAMED: usize = 12;

/// What is said of a line that is no client's call: how many lines the text has, and which are calls.
pub(crate) fn no_call(
    alloc: Global,
    bytes: &[u8],
    runs: &[LineRun],
    number: u32,
) -> Result<String, Memory> {
    let count = line_count(bytes);
    let mut text = if number as usize > count {
        sentence(
            alloc,
            &[
                Value::Text("there is no line "),
                Value::Number(u64::from(number)),
                Value::Text(": the text has "),
                Value::Number(count as u64),
            ],
        )?
    } else {
        sentence(
            alloc,
            &[
                Value::Text("line "),
                Value::Number(u64::from(number)),
                Value::Text(" is no client's call: it asks nothing"),
            ],
        )?
    };
    put_calls_of(alloc, runs, &mut text)?;
    Ok(text)
}

/// Puts which lines are clients' calls.
fn put_calls_of(alloc: Global, runs: &[LineRun], text: &mut String) -> Result<(), Memory> {
    let mut calls = Vec::new(alloc);
    'runs: for run in runs {
        if run.questions.is_some() {
            calls.push(run.line)?;
        }
    }
    put_calls(calls.as_slice(), text)
}

/// Puts which lines are calls: each where they are few, and else the first and the last.
fn put_calls(calls: &[u32], text: &mut String) -> Result<(), Memory> {
    let (Some(first), Some(last)) = (calls.first(), calls.last()) else {
        return put_all(text, &["; no line is a client's call"]);
    };
    if calls.len() <= NAMED {
        return put_each(calls, text);
    }
    put_line(
        text,
        &[
            Value::Text("; "),
            Value::Number(calls.len() as u64),
            Value::Text(" lines are clients' calls, from line "),
            Value::Number(u64::from(*first)),
            Value::Text(" to line "),
            Value::Number(u64::from(*last)),
        ],
    )
}

fn put_each(calls: &[u32], text: &mut String) -> Result<(), Memory> {
    put_all(text, &["; clients' calls stand in lines "])?;
    let mut at = 0usize;
    'calls: for call in calls {
        let gap = gap_before(at, calls.len());
        put_line(text, &[Value::Text(gap), Value::Number(u64::from(*call))])?;
        at = at.saturating_add(1);
    }
    Ok(())
}
