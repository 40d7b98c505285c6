//! A policy printed as a text, line by line in the order in which the reader wants them.

ghost use Rattle.std.specs.Prelude.{◌++◌, ◌≡◌, ◌≤◌, IfOk, length, OnOk, OnErr};
ghost use Rattle.text_lines.specs.Lines.{lines_of, line_limit};
ghost use Rattle.policy_print.specs.Printed;
ghost use Rattle.policy_print.specs.Same.{IsTextOf};
ghost use Rattle.text_print.specs.Fronts.{IsFront};

use crate::declarations::{put_attributes, put_contexts, put_kinds};
use crate::rules::{put_patterns, put_versions};
use flask_sid::{Memory, Piece, Text};
use policy_model::{PolicyParts, PolicyText};
use std::alloc::Global;

/// The text of a policy: `policy 1`, a `type` line for each declared type, the other declarations in their groups, and
/// each version with its rule lines. Where the text has no more lines than a text may have, it reads as the same policy
/// again, apart from the numbers of its lines.
pub fn print(alloc: Global, policy: &PolicyText) -> Result<Piece, Memory>
    ensures text { IfOk result (λ piece. piece ≡ Printed.printed policy.now) }
    ensures again { IfOk result (λ piece. length (lines_of piece) ≤ line_limit → IsTextOf policy.now piece) }
{
    let mut out = Text::new(alloc);
    put_policy(&mut out, policy.parts())?;
    Ok(out.into_piece())
}

/// Puts the text of a policy.
pub fn put_policy(out: &mut Text, policy: &PolicyParts) -> Result<(), Memory>
    ensures ok { OnOk result (out.new ≡ out.old ++ Printed.printed policy.now) }
    ensures err { OnErr result (IsFront out.old out.new) }
{
    out.extend(b"policy 1\n")?;
    put_kinds(out, policy.kinds.as_slice())?;
    put_contexts(out, policy.contexts.as_slice())?;
    put_attributes(out, policy.attributes.as_slice())?;
    put_patterns(out, b"neverallow", policy.nevers.as_slice())?;
    put_patterns(out, b"dontaudit", policy.silent.as_slice())?;
    put_patterns(out, b"auditallow", policy.loud.as_slice())?;
    put_versions(out, policy.versions.as_slice())
}
