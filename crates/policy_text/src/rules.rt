//! Versions and their rule lines.

ghost use Rattle.std.specs.Prelude.{◌≡◌, true, false, Some, Ok, IfOk};
ghost use Rattle.policy_text.specs.Forms;
ghost use Rattle.policy_text.specs.Leaving.{Leaves};
ghost use Rattle.policy_text.specs.Grammar;

use crate::draft::{Draft, RULE_LIMIT, VERSION_LIMIT};
use crate::form::{Decision, LabelForm, PatternForm};
use crate::known::deciding_rule;
use flask_sid::Memory;
use policy_model::Labelling;
use std::alloc::Global;
use text_lines::{FaultKind, Refusal, Words};

/// A `version` line.
#[tactic(auto, unfolding(crate::specs::Grammar::version_read))]
pub(crate) fn version_read(alloc: Global, line: u32, policy: &mut Draft<'_>) -> Result<(), Refusal>
    ensures { Leaves result policy.new (Grammar.version_read line policy.old) }
{
    if policy.parts().versions.len() >= VERSION_LIMIT {
        return Err(Refusal::Fault(FaultKind::Limit));
    }
    policy.add_version(alloc, line)?;
    Ok(())
}

/// Reads an `allow` or `withhold` line with which nothing is wrong at first sight. Where it tells that it has not, nothing is
/// read.
#[inline(always)]
pub(crate) fn plain_read<'a>(
    alloc: Global,
    line: u32,
    decision: Decision,
    words: &Words<'a>,
    policy: &mut Draft<'a>,
) -> Result<bool, Memory>
    ensures read { IfOk result (λ is_read. is_read ≡ true
        → Grammar.formed_read line (Forms.decided_form decision words.now) (Some policy.old) ≡ Ok (Some policy.new)) }
    ensures unread { IfOk result (λ is_read. is_read ≡ false → policy.new ≡ policy.old) }
{
    if !policy.has_version() || policy.newest_count() >= RULE_LIMIT {
        return Ok(false);
    }
    match policy.plain_rule(alloc, line, decision, words)? {
        None => Ok(false),
        Some(rule) => {
            policy.add_rule(alloc, rule)?;
            Ok(true)
        }
    }
}

/// An `allow` or `withhold` line.
#[tactic(auto, unfolding(crate::specs::Grammar::decided_read))]
pub(crate) fn decided_read<'a>(
    alloc: Global,
    line: u32,
    decision: Decision,
    words: &PatternForm<'a>,
    policy: &mut Draft<'a>,
) -> Result<(), Refusal>
    ensures { Leaves result policy.new (Grammar.decided_read line decision words.now policy.old) }
{
    if !policy.has_version() {
        return Err(Refusal::Fault(FaultKind::Order));
    }
    if words.is_long() || policy.newest_count() >= RULE_LIMIT {
        return Err(Refusal::Fault(FaultKind::Limit));
    }
    let pattern = policy.pattern(alloc, line, words)?;
    policy.add_rule(alloc, deciding_rule(decision, pattern))?;
    Ok(())
}

/// A `transition` or `member` line.
#[tactic(auto, unfolding(crate::specs::Grammar::labelled_read))]
pub(crate) fn labelled_read<'a>(
    alloc: Global,
    line: u32,
    labelling: Labelling,
    words: LabelForm<'a>,
    policy: &mut Draft<'a>,
) -> Result<(), Refusal>
    ensures { Leaves result policy.new (Grammar.labelled_read line labelling words.entry policy.old) }
{
    if !policy.has_version() {
        return Err(Refusal::Fault(FaultKind::Order));
    }
    if words.is_long() || policy.newest_count() >= RULE_LIMIT {
        return Err(Refusal::Fault(FaultKind::Limit));
    }
    let rule = policy.labelling_rule(alloc, line, labelling, &words)?;
    policy.add_rule(alloc, rule)?;
    Ok(())
}
