//! `who`: which types have a permission on targets of a type, and by which lines.

use crate::known::{class_named, permission_named, type_of, version_of};
use crate::report::Report;
use crate::source::{Source, read_or_explain};
use crate::stop::Stop;
use crate::values::Value;
use audit_allow::type_name;
use control_words::WhoWords;
use fault_causes::text_of;
use flask_sid::Memory;
use policy_answers::{Holder, holders};
use std::alloc::Global;

/// Answers `who`. The status is 1 where no type has the permission.
pub(crate) fn who(
    alloc: Global,
    bytes: &[u8],
    words: &WhoWords<'_>,
    out: &mut Report,
) -> Result<(), Stop> {
    let text = read_or_explain(alloc, bytes)?;
    let policy = text.policy();
    let version = version_of(alloc, policy, words.version)?;
    let t = type_of(alloc, policy, words.target)?;
    let class = class_named(alloc, words.class)?;
    let perm = permission_named(alloc, class, words.permission)?;
    let found = holders(alloc, policy, version, t, perm)?;
    Ok(put_holders(Source { bytes, policy }, found.as_slice(), out)?)
}

fn put_holders(source: Source<'_>, holders: &[Holder], out: &mut Report) -> Result<(), Memory> {
    out.begin(u8::from(holders.is_empty()))?;
    'holders: for holder in holders {
        put_holder(source, holder, out)?;
    }
    Ok(())
}

/// Puts a type that has the permission.
fn put_holder(source: Source<'_>, holder: &Holder, out: &mut Report) -> Result<(), Memory> {
    let text = source.line(holder.line);
    let name = Value::Text(text_of(type_name(source.policy.parts(), holder.s)));
    out.put(
        &[name, Value::Text(", "), Value::By(holder.line, text)],
        &[
            ("source", name),
            ("line", Value::of_number(holder.line)),
            ("text", Value::of_text(text)),
        ],
    )
}
