//! The declarations, and the lines on permissions outside the versions.

ghost use Rattle.std.specs.Prelude.{◌≡◌};
ghost use Rattle.policy_text.specs.Leaving.{Leaves};
ghost use Rattle.policy_text.specs.Grammar;

use crate::draft::{ATTRIBUTE_LIMIT, Draft, KIND_LIMIT};
use crate::form::{Listing, PatternForm};
use crate::long::is_some_long;
use flask_sid::{ContextOf, Word};
use std::alloc::Global;
use text_lines::{FaultKind, Refusal, Words};

/// A `context` line.
#[tactic(auto, unfolding(crate::specs::Grammar::context_read))]
pub(crate) fn context_read<'a>(
    alloc: Global,
    line: u32,
    context: ContextOf<Word<'a>>,
    policy: &mut Draft<'a>,
) -> Result<(), Refusal>
    ensures { Leaves result policy.new (Grammar.context_read line context.entry policy.old) }
{
    if policy.has_version() {
        return Err(Refusal::Fault(FaultKind::Order));
    }
    if context.is_long() || policy.is_full_for(&context) {
        return Err(Refusal::Fault(FaultKind::Limit));
    }
    if policy.has_context(&context) || policy.is_attribute(&context.kind) {
        return Err(Refusal::Fault(FaultKind::Twice));
    }
    policy.add_context(alloc, line, &context)?;
    Ok(())
}

/// A `type` line.
#[tactic(auto, unfolding(crate::specs::Grammar::kind_read))]
pub(crate) fn kind_read<'a>(
    alloc: Global,
    line: u32,
    name: Word<'a>,
    policy: &mut Draft<'a>,
) -> Result<(), Refusal>
    ensures { Leaves result policy.new (Grammar.kind_read line name.entry policy.old) }
{
    if policy.has_version() {
        return Err(Refusal::Fault(FaultKind::Order));
    }
    if name.is_long() || policy.parts().kinds.len() >= KIND_LIMIT {
        return Err(Refusal::Fault(FaultKind::Limit));
    }
    if policy.is_kind(&name) || policy.is_attribute(&name) {
        return Err(Refusal::Fault(FaultKind::Twice));
    }
    policy.add_kind(alloc, line, &name)?;
    Ok(())
}

/// An `attribute` line.
#[tactic(auto, unfolding(crate::specs::Grammar::attribute_read))]
pub(crate) fn attribute_read<'a>(
    alloc: Global,
    line: u32,
    name: Word<'a>,
    members: Words<'a>,
    policy: &mut Draft<'a>,
) -> Result<(), Refusal>
    ensures { Leaves result policy.new (Grammar.attribute_read line name.entry members.entry policy.old) }
{
    if policy.has_version() {
        return Err(Refusal::Fault(FaultKind::Order));
    }
    if name.is_long()
        || is_some_long(members.again())
        || policy.parts().attributes.len() >= ATTRIBUTE_LIMIT
    {
        return Err(Refusal::Fault(FaultKind::Limit));
    }
    if !policy.are_kinds(members.again()) {
        return Err(Refusal::Fault(FaultKind::Unknown));
    }
    if policy.is_kind(&name) || policy.is_attribute(&name) {
        return Err(Refusal::Fault(FaultKind::Twice));
    }
    policy.add_attribute(alloc, line, &name, members)?;
    Ok(())
}

/// A `neverallow`, `dontaudit` or `auditallow` line.
#[tactic(auto, unfolding(crate::specs::Grammar::listed_read))]
pub(crate) fn listed_read<'a>(
    alloc: Global,
    line: u32,
    listing: Listing,
    words: PatternForm<'a>,
    policy: &mut Draft<'a>,
) -> Result<(), Refusal>
    ensures { Leaves result policy.new (Grammar.listed_read line listing words.entry policy.old) }
{
    if policy.has_version() {
        return Err(Refusal::Fault(FaultKind::Order));
    }
    if words.is_long() || policy.is_full_for_listed() {
        return Err(Refusal::Fault(FaultKind::Limit));
    }
    let pattern = policy.pattern(alloc, line, &words)?;
    policy.add_listed(listing, pattern)?;
    Ok(())
}
