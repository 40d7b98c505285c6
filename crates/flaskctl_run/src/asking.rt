//! `ask`: what a version decides between two types, permission by permission, and by which lines.

use crate::known::{class_named, permission_named, type_of, version_of};
use crate::report::Report;
use crate::source::{Source, read_or_explain};
use crate::stop::Stop;
use crate::values::Value;
use access_vectors::perm_name;
use control_words::AskWords;
use flask_sid::Memory;
use policy_answers::{Decision, decision_on, decisions};
use std::alloc::Global;

/// Answers `ask`. The status is 1 where one permission was asked for and is not allowed.
pub(crate) fn ask(
    alloc: Global,
    bytes: &[u8],
    words: &AskWords<'_>,
    out: &mut Report,
) -> Result<(), Stop> {
    let text = read_or_explain(alloc, bytes)?;
    let policy = text.policy();
    let source = Source { bytes, policy };
    let version = version_of(alloc, policy, words.version)?;
    let s = type_of(alloc, policy, words.source)?;
    let t = type_of(alloc, policy, words.target)?;
    let class = class_named(alloc, words.class)?;
    if let Some(word) = words.permission {
        let perm = permission_named(alloc, class, word)?;
        let decision = decision_on(policy, version, s, t, perm);
        out.begin(u8::from(!decision.yes))?;
        return Ok(put_decision(source, &decision, out)?);
    }
    out.begin(0)?;
    let found = decisions(alloc, policy, version, s, t, class)?;
    Ok(put_decisions(source, found.as_slice(), out)?)
}

fn put_decisions(
    source: Source<'_>,
    decisions: &[Decision],
    out: &mut Report,
) -> Result<(), Memory> {
    'decisions: for decision in decisions {
        put_decision(source, decision, out)?;
    }
    Ok(())
}

/// Puts what a version decides on a permission.
fn put_decision(source: Source<'_>, decision: &Decision, out: &mut Report) -> Result<(), Memory> {
    let text = source.line(decision.line);
    let allowed = Value::Truth(decision.yes);
    let permission = Value::Text(perm_name(decision.perm));
    out.put(
        &[
            allowed,
            Value::Text(" "),
            permission,
            Value::Text(", "),
            Value::By(decision.line, text),
        ],
        &[
            ("permission", permission),
            ("allowed", allowed),
            ("line", Value::of_number(decision.line)),
            ("text", Value::of_text(text)),
        ],
    )
}
