//! Why a policy that can be read is not used.

use crate::finding::{Finding, put_finding};
use crate::report::Report;
use crate::source::Source;
use crate::values::{Value, sentence};
use access_vectors::{Perm, class_name, perm_name};
use audit_allow::type_name;
use fault_causes::text_of;
use flask_sid::Memory;
use policy_answers::decision_on;
use policy_model::{RuleLine, Verdict};
use policy_versions::CompileFault;
use std::alloc::Global;

/// A permission that a version allows between the types at two places.
#[derive(Clone, Copy)]
struct Breach {
    version: u8,
    s: u8,
    t: u8,
    perm: Perm,
}

/// Puts why a policy is not used, with the lines that are the cause.
pub(crate) fn put_refusals(
    alloc: Global,
    source: Source<'_>,
    fault: CompileFault,
    out: &mut Report,
) -> Result<(), Memory> {
    out.begin(1)?;
    match fault {
        CompileFault::Memory => Err(Memory),
        CompileFault::TooManyContexts => put_too_many(alloc, source, out),
        CompileFault::Neverallow {
            version,
            line,
            s,
            t,
            perm,
        } => {
            let breach = Breach {
                version,
                s,
                t,
                perm,
            };
            let cause = broken(alloc, source, &breach)?;
            let found = Finding::new("neverallow", cause.as_str());
            put_finding(&found.at_line(source.bytes, line), out)
        }
    }
}

/// What a version allows against a `neverallow` line, with the line by which it does.
fn broken(alloc: Global, source: Source<'_>, breach: &Breach) -> Result<String, Memory> {
    let Breach {
        version,
        s,
        t,
        perm,
    } = *breach;
    let parts = source.policy.parts();
    let (s, t) = (type_name(parts, s), type_name(parts, t));
    let by = decision_on(source.policy, version, s, t, perm).line;
    sentence(
        alloc,
        &[
            Value::Text("version "),
            Value::Number(u64::from(version)),
            Value::Text(" allows "),
            Value::Text(text_of(s)),
            Value::Text(" "),
            Value::Text(text_of(t)),
            Value::Text(" "),
            Value::Text(class_name(perm.class())),
            Value::Text(" "),
            Value::Text(perm_name(perm)),
            Value::Text(" by "),
            Value::By(by, source.line(by)),
        ],
    )
}

/// Puts that there are more contexts than can be numbered, with each line that gives a type to labels or members.
fn put_too_many(alloc: Global, source: Source<'_>, out: &mut Report) -> Result<(), Memory> {
    let parts = source.policy.parts();
    let cause = sentence(
        alloc,
        &[
            Value::Text("the policy leads to more than 4095 contexts: "),
            Value::Number(parts.contexts.len() as u64),
            Value::Text(
                " of them are declared, and a label or a member joins the user of one of them with the type of another, or with a type that a line below gives",
            ),
        ],
    )?;
    put_finding(&Finding::new("contexts", cause.as_str()), out)?;
    'versions: for version in parts.versions.as_slice() {
        put_leading(source, version.rules.as_slice(), out)?;
    }
    Ok(())
}

/// Puts the lines that give a type, each with what it leads to.
fn put_leading(source: Source<'_>, rules: &[RuleLine], out: &mut Report) -> Result<(), Memory> {
    'rules: for rule in rules {
        let cause = match &rule.verdict {
            Verdict::Transition(_) => "new objects get contexts of the type that it gives",
            Verdict::Member(_) => "members get contexts of the type that it gives",
            _ => continue,
        };
        let found = Finding::new("contexts", cause);
        put_finding(&found.at_line(source.bytes, rule.line), out)?;
    }
    Ok(())
}
