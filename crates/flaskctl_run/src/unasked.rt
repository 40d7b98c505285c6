//! Why a call that asked nothing got its answer.

use crate::report::Report;
use crate::values::Value;
use crate::wording::put_reply_of;
use flask_sid::{Memory, SidTable};
use session_questions::LineAnswer;
use std::alloc::Global;

/// What it means where a call got one of these answers before its first question.
static MEANINGS: [(&str, &str); 12] = [
    (
        "aborted",
        "an acknowledgement was forced while the client held a pass of an older policy number, and the call came before its end",
    ),
    (
        "done",
        "a call that gives a slot up asks nothing, nor does an exec to the context that the process has",
    ),
    (
        "badslot",
        "the client holds nothing of this manager in the slot",
    ),
    ("slotused", "the client holds something in the slot already"),
    (
        "badmode",
        "the client did not ask for such calls when the slot was opened",
    ),
    ("exists", "there is such an object already"),
    ("isdir", "the path is that of a directory"),
    ("noprocess", "there is no process of that number"),
    ("notchild", "the process is no child of the client"),
    ("ended", "the process has ended"),
    ("taken", "the port is bound already"),
    ("noport", "the port is not bound"),
];

fn meaning_of(answer: &str) -> &'static str {
    'meanings: for meaning in MEANINGS.iter() {
        if meaning.0 == answer {
            return meaning.1;
        }
    }
    "it failed before its first question"
}

/// Puts that a call asked nothing, what it came to, and why that is so.
pub(crate) fn put_unasked(
    alloc: Global,
    contexts: &SidTable,
    answer: &LineAnswer,
    out: &mut Report,
) -> Result<(), Memory> {
    let mut words = String::new(alloc);
    put_reply_of(alloc, contexts, answer, &mut words)?;
    let answer = words.as_str().trim();
    put_answer(answer, meaning_of(answer), out)
}

fn put_answer<'t>(answer: &'t str, cause: &'t str, out: &mut Report) -> Result<(), Memory> {
    out.put(
        &[
            Value::Text("the call asked nothing; its answer is "),
            Value::Text(answer),
            Value::Text(": "),
            Value::Text(cause),
        ],
        &[
            ("answer", Value::Text(answer)),
            ("cause", Value::Text(cause)),
        ],
    )
}
