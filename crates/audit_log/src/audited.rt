//! Which questions have an audit line.

ghost use Rattle.std.specs.Prelude.{◌++◌, ◌≡◌, IfOk, OnOk, OnErr};
ghost use Rattle.std.specs.List.{filter};
ghost use Rattle.text_print.specs.Printed.{context_with};
ghost use Rattle.text_print.specs.Fronts.{IsFront};
ghost use Rattle.audit_log.specs.Audited;

use access_vectors::{Asked, Perm};
use flask_sid::{Memory, Rows, Sid, SidTable};
use manager_history::Entry;
use policy_model::{Pattern, PolicyParts};
use std::alloc::Global;

/// Who acts in an operation: the client, its own mark of the call (the number of its line), and the policy number under
/// which it acts.
#[derive(Clone, Copy, Debug, PartialEq, Eq)]
pub struct Acting {
    pub client: u8,
    pub mark: u32,
    pub number: u32,
}

/// A question that is told, with its answer: in the call of a client, by its mark, under a policy number.
#[derive(Clone, Copy, Debug, PartialEq, Eq)]
pub struct AuditLine {
    pub client: u8,
    pub mark: u32,
    pub asked: Asked,
    pub number: u32,
}

/// Audit lines in their order.
pub type AuditLines = Rows<AuditLine>;

/// The audit lines of an entry of a manager's history. Only an operation has any.
pub fn lines_of<K, R>(
    alloc: Global,
    policy: &PolicyParts,
    sids: &SidTable,
    entry: &Entry<K, R>,
) -> Result<AuditLines, Memory>
    ensures { IfOk result (λ lines. lines ≡ Audited.lines_of policy.now sids.now entry.now) }
{
    match entry {
        Entry::Op {
            caller,
            mark,
            number,
            asked,
            ..
        } => {
            let acting = Acting {
                client: *caller,
                mark: *mark,
                number: *number,
            };
            lines_asked(alloc, policy, sids, acting, asked.as_slice())
        }
        _ => Ok(Rows::new(alloc)),
    }
}

/// The audit lines of an operation that asked these questions, in their order.
pub fn lines_asked(
    alloc: Global,
    policy: &PolicyParts,
    sids: &SidTable,
    acting: Acting,
    asked: &[Asked],
) -> Result<AuditLines, Memory>
    ensures { IfOk result (λ lines. lines ≡ Audited.lines_asked policy.now sids.now acting asked.now) }
{
    let mut lines = Rows::new(alloc);
    'questions: for question in asked {
        if is_audited(policy, sids, question) {
            lines.push(line_for(acting, question))?;
        }
    }
    Ok(lines)
}

/// Puts those of these questions that were denied and have an audit line, in their order.
pub fn put_denials(
    out: &mut Rows<Asked>,
    policy: &PolicyParts,
    sids: &SidTable,
    asked: &[Asked],
) -> Result<(), Memory>
    ensures ok { OnOk result (out.new ≡ out.old ++ filter (Audited.is_denial policy.now sids.now) asked.now) }
    ensures err { OnErr result (IsFront out.old out.new) }
{
    'questions: for question in asked {
        if !question.yes && is_audited(policy, sids, question) {
            out.push(*question)?;
        }
    }
    Ok(())
}

pub(crate) fn line_for(acting: Acting, asked: &Asked) -> AuditLine
    ensures { result ≡ Audited.line_for acting asked.now }
{
    let Acting {
        client,
        mark,
        number,
    } = acting;
    AuditLine {
        client,
        mark,
        asked: *asked,
        number,
    }
}

#[tactic(auto, unfolding(crate::specs::Audited::is_audited))]
pub(crate) fn is_audited(policy: &PolicyParts, sids: &SidTable, asked: &Asked) -> bool
    ensures { result ≡ Audited.is_audited policy.now sids.now asked.now }
{
    let s = kind_of(sids, asked.s);
    let t = kind_of(sids, asked.t);
    if asked.yes {
        is_listed(policy, policy.loud.as_slice(), s, t, asked.perm)
    } else {
        !is_listed(policy, policy.silent.as_slice(), s, t, asked.perm)
    }
}

fn is_listed(policy: &PolicyParts, patterns: &[Pattern], s: &[u8], t: &[u8], perm: Perm) -> bool
    ensures { result ≡ Audited.is_listed policy.now patterns.now s.now t.now perm }
{
    patterns
        .iter()
        .any(|pattern| policy.matches_permission(pattern, s, t, perm))
}

/// The type of an identifier's context.
fn kind_of(sids: &SidTable, sid: Sid) -> &[u8]
    ensures { result.now ≡ (context_with sids.now sid).kind }
{
    match sids.context(sid) {
        None => &[],
        Some(context) => context.kind.as_bytes(),
    }
}
