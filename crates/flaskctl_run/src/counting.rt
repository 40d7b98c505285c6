//! How many of what a text has, and how many there may be.

use crate::json::put_object;
use crate::report::{Form, Report};
use crate::text::Text;
use crate::values::{Value, put_line};
use flask_sid::Memory;
use policy_model::PolicyParts;
use session_text::SessionParts;

/// How many of something a text has, and how many it may have.
type Count = (&'static str, usize, usize);

/// Puts what a text has.
pub(crate) fn put_counts(text: &Text, lines: usize, out: &mut Report) -> Result<(), Memory> {
    put_each(&[("lines", lines, 100_000)], out)?;
    put_each(&policy_counts(text.policy().parts()), out)?;
    match text {
        Text::Policy(_) => Ok(()),
        Text::Session(session) => put_each(&session_counts(session.parts()), out),
    }
}

fn policy_counts(policy: &PolicyParts) -> [Count; 6] {
    let listed = policy
        .nevers
        .len()
        .saturating_add(policy.silent.len())
        .saturating_add(policy.loud.len());
    [
        ("contexts", policy.contexts.len(), 4095),
        ("types", policy.kinds.len(), 128),
        ("attributes", policy.attributes.len(), 64),
        ("neverallow, dontaudit and auditallow", listed, 1024),
        ("versions", policy.versions.len(), 64),
        ("rule lines of a version", most_rules(policy), 1024),
    ]
}

/// How many rule lines the version has that has most of them.
fn most_rules(policy: &PolicyParts) -> usize {
    let mut most = 0;
    'versions: for version in policy.versions.as_slice() {
        most = most.max(version.rules.len());
    }
    most
}

fn session_counts(session: &SessionParts) -> [Count; 4] {
    [
        ("files and directories", session.nodes.len(), 4095),
        ("ports with labels", session.ports.len(), 1024),
        ("clients", session.clients.len(), 62),
        ("lines that run", session.lines.len(), 100_000),
    ]
}

fn put_each(counts: &[Count], out: &mut Report) -> Result<(), Memory> {
    'counts: for count in counts {
        put_count(*count, out)?;
    }
    Ok(())
}

/// Puts a count. In lines all counts stand in one.
fn put_count(count: Count, out: &mut Report) -> Result<(), Memory> {
    let head = if out.is_begun { "" } else { "well formed: " };
    let (what, has, most) = (
        Value::Text(count.0),
        Value::Number(count.1 as u64),
        Value::Number(count.2 as u64),
    );
    out.part(", ")?;
    match out.form {
        Form::Lines => put_line(
            &mut out.text,
            &[
                Value::Text(head),
                what,
                Value::Text(" "),
                has,
                Value::Text(" of "),
                most,
            ],
        ),
        Form::Json => put_object(
            &mut out.text,
            &[("what", what), ("count", has), ("limit", most)],
        ),
    }
}
