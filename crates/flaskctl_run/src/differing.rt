//! `diff`: which permissions two versions give differently, and which types to new objects and as members, and by which lines.

use crate::known::version_of;
use crate::report::Report;
use crate::source::{Source, read_or_explain};
use crate::stop::Stop;
use crate::values::Value;
use access_vectors::{Class, class_name, perm_name};
use audit_allow::type_name;
use control_words::DiffWords;
use fault_causes::text_of;
use flask_sid::Memory;
use policy_answers::{Change, Relabel, changes, relabels};
use policy_model::Labelling;
use std::alloc::Global;

/// What two versions decide differently between the types at two places: a permission that is gained or lost, or the type of a new
/// object or of a member.
#[derive(Clone, Copy)]
struct Differing {
    what: &'static str,
    s: u8,
    t: u8,
    class: Class,
    permission: Option<&'static str>,
    before: Option<u32>,
    after: Option<u32>,
}

impl Differing {
    fn of_change(change: &Change) -> Differing {
        let perm = change.before.perm;
        Differing {
            what: if change.after.yes { "gained" } else { "lost" },
            s: change.s,
            t: change.t,
            class: perm.class(),
            permission: Some(perm_name(perm)),
            before: change.before.line,
            after: change.after.line,
        }
    }

    fn of_relabel(relabel: &Relabel) -> Differing {
        Differing {
            what: match relabel.labelling {
                Labelling::Transition => "transition",
                Labelling::Member => "member",
            },
            s: relabel.s,
            t: relabel.t,
            class: relabel.class,
            permission: None,
            before: relabel.before,
            after: relabel.after,
        }
    }
}

/// Answers `diff`. The status is 1 where the versions differ.
pub(crate) fn diff(
    alloc: Global,
    bytes: &[u8],
    words: &DiffWords<'_>,
    out: &mut Report,
) -> Result<(), Stop> {
    let text = read_or_explain(alloc, bytes)?;
    let policy = text.policy();
    let before = version_of(alloc, policy, words.before)?;
    let after = version_of(alloc, policy, words.after)?;
    let changed = changes(alloc, policy, before, after)?;
    let given = relabels(alloc, policy, before, after)?;
    let source = Source { bytes, policy };
    Ok(put_differences(source, changed.as_slice(), given.as_slice(), out)?)
}

fn put_differences(
    source: Source<'_>,
    changes: &[Change],
    relabels: &[Relabel],
    out: &mut Report,
) -> Result<(), Memory> {
    out.begin(u8::from(!changes.is_empty() || !relabels.is_empty()))?;
    'changes: for change in changes {
        put_differing(source, Differing::of_change(change), out)?;
    }
    'relabels: for relabel in relabels {
        put_differing(source, Differing::of_relabel(relabel), out)?;
    }
    Ok(())
}

fn put_differing(source: Source<'_>, differing: Differing, out: &mut Report) -> Result<(), Memory> {
    let parts = source.policy.parts();
    let Differing {
        before,
        after,
        permission,
        ..
    } = differing;
    let (text_before, text_after) = (source.line(before), source.line(after));
    let what = Value::Text(differing.what);
    let s = Value::Text(text_of(type_name(parts, differing.s)));
    let t = Value::Text(text_of(type_name(parts, differing.t)));
    let class = Value::Text(class_name(differing.class));
    let space = Value::Text(" ");
    let gap = if permission.is_some() {
        space
    } else {
        Value::Null
    };
    out.put(
        &[
            what,
            space,
            s,
            space,
            t,
            space,
            class,
            gap,
            Value::of_text(permission),
            Value::Text(", before "),
            Value::By(before, text_before),
            Value::Text(", after "),
            Value::By(after, text_after),
        ],
        &[
            ("what", what),
            ("source", s),
            ("target", t),
            ("class", class),
            ("permission", Value::of_text(permission)),
            ("line_before", Value::of_number(before)),
            ("text_before", Value::of_text(text_before)),
            ("line_after", Value::of_number(after)),
            ("text_after", Value::of_text(text_after)),
        ],
    )
}
