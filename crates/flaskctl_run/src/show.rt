//! `show`: the lines of a session with their answers beside them.

use crate::checking::check;
use crate::report::Report;
use crate::session::read_session;
use crate::stop::Stop;
use crate::values::Value;
use crate::wording::{Named, put_answer_words};
use fault_causes::{Lines, text_of};
use flask_sid::Memory;
use policy_versions::compile;
use session_questions::{LineRun, run_session};
use std::alloc::Global;
use std::sync::Wait;

/// Answers `show`.
pub(crate) fn show<R: Wait>(
    rt: &R,
    alloc: Global,
    bytes: &[u8],
    out: &mut Report,
) -> Result<(), Stop> {
    let session = read_session(alloc, bytes)?;
    let Ok(catalogue) = compile(alloc, &session.parts().policy) else {
        return check(alloc, bytes, out);
    };
    let run = run_session(rt, alloc, session.into_parts(), &catalogue)?;
    let named = Named {
        contexts: catalogue.sids(),
        clients: run.clients.as_slice(),
    };
    Ok(put_lines(alloc, bytes, named, run.lines.as_slice(), out)?)
}

/// Puts the lines of a text, each with the answer of the run of its number.
fn put_lines(
    alloc: Global,
    bytes: &[u8],
    named: Named<'_>,
    runs: &[LineRun],
    out: &mut Report,
) -> Result<(), Memory> {
    out.begin(0)?;
    let mut lines = Lines::new(bytes);
    let mut told = 0usize;
    'lines: for line in 1..u32::MAX {
        let Some(text) = lines.next() else {
            break 'lines;
        };
        let text = text_of(text);
        match run_at(runs, told, line) {
            None => put_shown(line, text, None, out)?,
            Some(run) => {
                told = told.saturating_add(1);
                put_run(alloc, named, run, text, out)?;
            }
        }
    }
    Ok(())
}

/// The run at a place, where it is that of a line.
fn run_at(runs: &[LineRun], at: usize, line: u32) -> Option<&LineRun> {
    let run = runs.get(at)?;
    if run.line == line { Some(run) } else { None }
}

/// Puts a line that runs, with its answer.
fn put_run(
    alloc: Global,
    named: Named<'_>,
    run: &LineRun,
    text: &str,
    out: &mut Report,
) -> Result<(), Memory> {
    let mut words = String::new(alloc);
    put_answer_words(alloc, named, &run.answer, &mut words)?;
    put_shown(run.line, text, Some(words.as_str()), out)
}

fn put_shown<'t>(
    line: u32,
    text: &'t str,
    answer: Option<&'t str>,
    out: &mut Report,
) -> Result<(), Memory> {
    let behind = if answer.is_some() { "\n    = " } else { "" };
    let number = Value::Number(u64::from(line));
    out.put(
        &[
            number,
            Value::Text(" "),
            Value::Text(text),
            Value::Text(behind),
            Value::of_text(answer),
        ],
        &[
            ("line", number),
            ("text", Value::Text(text)),
            ("answer", Value::of_text(answer)),
        ],
    )
}
