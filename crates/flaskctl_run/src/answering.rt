//! What a request comes to.

use crate::asking::ask;
use crate::checking::check;
use crate::differing::diff;
use crate::holding::who;
use crate::report::{Form, Report};
use crate::show::show;
use crate::stop::Stop;
use crate::why::why;
use control_words::{Command, Request};
use std::alloc::Global;
use std::sync::Wait;

/// The answer of a request, of the bytes of a policy or a session.
pub fn answer<R: Wait>(
    rt: &R,
    alloc: Global,
    bytes: &[u8],
    request: &Request<'_>,
) -> Result<Report, Stop> {
    let form = if request.json {
        Form::Json
    } else {
        Form::Lines
    };
    let mut out = Report::new(alloc, form);
    put_answer(rt, alloc, bytes, &request.command, &mut out)?;
    Ok(out)
}

fn put_answer<R: Wait>(
    rt: &R,
    alloc: Global,
    bytes: &[u8],
    command: &Command<'_>,
    out: &mut Report,
) -> Result<(), Stop> {
    match command {
        Command::Check => check(alloc, bytes, out)?,
        Command::Why(words) => why(rt, alloc, bytes, words, out)?,
        Command::Show => show(rt, alloc, bytes, out)?,
        Command::Ask(words) => ask(alloc, bytes, words, out)?,
        Command::Who(words) => who(alloc, bytes, words, out)?,
        Command::Diff(words) => diff(alloc, bytes, words, out)?,
    }
    Ok(out.end()?)
}
