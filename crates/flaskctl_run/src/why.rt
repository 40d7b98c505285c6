//! `why`: what a line of a session asked when it was run, and which lines of the policy decided it.

use crate::calls::no_call;
use crate::checking::check;
use crate::report::Report;
use crate::session::read_session;
use crate::source::Source;
use crate::stop::Stop;
use crate::unasked::put_unasked;
use crate::values::Value;
use access_vectors::{Asked, class_name, perm_name};
use control_words::WhyWords;
use fault_causes::{joined, text_of};
use flask_sid::{Memory, Sid, SidTable, Word};
use policy_answers::{allowing_versions, decision_on};
use policy_versions::compile;
use session_questions::{LineAnswer, LineQuestions, LineRun, run_session};
use std::alloc::Global;
use std::sync::Wait;
use text_lines::numeral;

/// What questions are explained by: the policy, the contexts of identifiers, and the version under which they were asked.
#[derive(Clone, Copy)]
struct Judged<'t> {
    source: Source<'t>,
    sids: &'t SidTable,
    version: u8,
}

/// Answers `why`. The status is 1 where the line was denied something.
pub(crate) fn why<R: Wait>(
    rt: &R,
    alloc: Global,
    bytes: &[u8],
    words: &WhyWords<'_>,
    out: &mut Report,
) -> Result<(), Stop> {
    let number = line_of(alloc, words.line)?;
    let session = read_session(alloc, bytes)?;
    let Ok(catalogue) = compile(alloc, &session.parts().policy) else {
        return check(alloc, bytes, out);
    };
    let run = run_session(rt, alloc, session.into_parts(), &catalogue)?;
    let Some((answer, questions)) = call_of(run.lines.as_slice(), number) else {
        return Err(Stop::Usage(no_call(alloc, bytes, run.lines.as_slice(), number)?));
    };
    let judged = Judged {
        source: Source {
            bytes,
            policy: &run.policy,
        },
        sids: catalogue.sids(),
        version: questions.version,
    };
    let asked = questions.asked.as_slice();
    put_questions(alloc, judged, asked, out)?;
    if asked.is_empty() {
        put_unasked(alloc, judged.sids, answer, out)?;
    }
    Ok(())
}

/// What the line of a number came to, and what it asked, where it is a client's call.
fn call_of(runs: &[LineRun], number: u32) -> Option<(&LineAnswer, &LineQuestions)> {
    'runs: for run in runs {
        if run.line == number {
            return Some((&run.answer, run.questions.as_ref()?));
        }
    }
    None
}

/// Puts the questions in words, in the order in which they were asked, and begins notes: the status is 1 where one was denied.
fn put_questions(
    alloc: Global,
    judged: Judged<'_>,
    asked: &[Asked],
    out: &mut Report,
) -> Result<(), Memory> {
    out.begin(u8::from(is_denied(asked)))?;
    'questions: for question in asked {
        put_question(alloc, judged, question, out)?;
    }
    out.begin_notes()
}

/// Whether one of these questions was denied.
fn is_denied(asked: &[Asked]) -> bool {
    'questions: for question in asked {
        if !question.yes {
            return true;
        }
    }
    false
}

/// The number of a line.
fn line_of(alloc: Global, word: &str) -> Result<u32, Stop> {
    if let Some(number) = numeral(&Word::new(word.as_bytes())) {
        if let Ok(line) = u32::try_from(number) {
            return Ok(line);
        }
    }
    Err(Stop::Usage(joined(alloc, &["'", word, "' is no number of a line"])?))
}

/// Puts a question in words, with the line that decides it and, where it was denied, the versions that would allow it.
fn put_question(
    alloc: Global,
    judged: Judged<'_>,
    asked: &Asked,
    out: &mut Report,
) -> Result<(), Memory> {
    if asked.yes {
        return put_reason(judged, asked, &[], out);
    }
    let (s, t) = (kind_of(judged.sids, asked.s), kind_of(judged.sids, asked.t));
    let allowing = allowing_versions(alloc, judged.source.policy, s, t, asked.perm)?;
    put_reason(judged, asked, allowing.as_slice(), out)
}

fn put_reason<'t>(
    judged: Judged<'t>,
    asked: &Asked,
    allowing: &'t [u8],
    out: &mut Report,
) -> Result<(), Memory> {
    let (s, t) = (kind_of(judged.sids, asked.s), kind_of(judged.sids, asked.t));
    let perm = asked.perm;
    let line = decision_on(judged.source.policy, judged.version, s, t, perm).line;
    let text = judged.source.line(line);
    let space = Value::Text(" ");
    let version = Value::Number(u64::from(judged.version));
    let allowed = Value::Truth(asked.yes);
    let (s, t) = (Value::Text(text_of(s)), Value::Text(text_of(t)));
    let class = Value::Text(class_name(perm.class()));
    let permission = Value::Text(perm_name(perm));
    out.put(
        &[
            allowed,
            space,
            s,
            space,
            t,
            space,
            class,
            space,
            permission,
            Value::Text(", version "),
            version,
            Value::Text(", "),
            Value::By(line, text),
            Value::Text(behind(asked.yes, allowing.is_empty())),
            Value::Numbers(allowing),
        ],
        &[
            ("version", version),
            ("source", s),
            ("target", t),
            ("class", class),
            ("permission", permission),
            ("allowed", allowed),
            ("line", Value::of_number(line)),
            ("text", Value::of_text(text)),
            ("allowing", Value::Numbers(allowing)),
        ],
    )
}

/// What stands before the versions that would allow what was denied.
fn behind(allowed: bool, nowhere: bool) -> &'static str {
    match (allowed, nowhere) {
        (true, _) => "",
        (false, true) => "; no version allows it",
        (false, false) => "; allowed by version",
    }
}

/// The type of an identifier's context.
fn kind_of(sids: &SidTable, sid: Sid) -> &[u8] {
    match sids.context(sid) {
        None => &[],
        Some(context) => context.kind.as_bytes(),
    }
}
