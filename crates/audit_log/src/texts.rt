//! How an audit line is written.

ghost use Rattle.std.specs.Prelude.{◌≡◌, ◌∷◌, [], ◌++◌, IfOk, OnOk, OnErr};
ghost use Rattle.std.specs.List.{flat_map};
ghost use Rattle.text_print.specs.Printed.{behind, spaced};
ghost use Rattle.text_print.specs.Fronts.{IsFront};
ghost use Rattle.audit_log.specs.Texts;

use crate::audited::AuditLine;
use access_vectors::{Asked, class_name, perm_name};
use flask_sid::{Memory, Piece, SidTable, Text};
use std::alloc::Global;
use text_print::{put_label, put_numeral, put_word};

/// An audit line with its line end, by the name of its client: which call, whether the question was granted or denied, its
/// source and target as contexts, class, permission and policy number.
pub fn text(alloc: Global, line: &AuditLine, sids: &SidTable, name: &[u8]) -> Result<Piece, Memory>
    ensures { IfOk result (λ piece. piece ≡ Texts.line_text sids.now name.now line.now) }
{
    let mut out = Text::new(alloc);
    put_text(&mut out, line, sids, name)?;
    Ok(out.into_piece())
}

/// Puts an audit line with its line end.
pub fn put_text(
    out: &mut Text,
    line: &AuditLine,
    sids: &SidTable,
    name: &[u8],
) -> Result<(), Memory>
    ensures ok { OnOk result (out.new ≡ out.old ++ Texts.line_text sids.now name.now line.now) }
    ensures err { OnErr result (IsFront out.old out.new) }
{
    put_call(out, line, name)?;
    put_question(out, &line.asked, sids)?;
    put_policy(out, line.number)
}

/// Puts which call it is, and how a question of it was answered.
fn put_call(out: &mut Text, line: &AuditLine, name: &[u8]) -> Result<(), Memory>
    ensures ok { OnOk result (out.new ≡ out.old ++ spaced (Texts.call_words name.now line.now)) }
    ensures err { OnErr result (IsFront out.old out.new) }
{
    out.extend(b"audit")?;
    put_word(out, name)?;
    put_numeral(out, u64::from(line.mark))?;
    put_word(out, answer_word(line.asked.yes))
}

/// Puts the policy number, and ends the line.
fn put_policy(out: &mut Text, number: u32) -> Result<(), Memory>
    ensures ok { OnOk result (out.new ≡ out.old ++ (flat_map behind (Texts.policy_words number) ++ 10 ∷ [])) }
    ensures err { OnErr result (IsFront out.old out.new) }
{
    put_word(out, b"policy")?;
    put_numeral(out, u64::from(number))?;
    out.push(b'\n')
}

/// Puts a question, each word behind a space: source and target as contexts, class and permission.
fn put_question(out: &mut Text, asked: &Asked, sids: &SidTable) -> Result<(), Memory>
    ensures ok { OnOk result (out.new ≡ out.old ++ flat_map behind (Texts.question_words sids.now asked.now)) }
    ensures err { OnErr result (IsFront out.old out.new) }
{
    let perm = asked.perm;
    put_label(out, sids, asked.s)?;
    put_label(out, sids, asked.t)?;
    put_word(out, class_name(perm.class()).as_bytes())?;
    put_word(out, perm_name(perm).as_bytes())
}

fn answer_word(yes: bool) -> &'static [u8]
    ensures { result.now ≡ Texts.answer_word yes }
{
    if yes { b"granted" } else { b"denied" }
}
