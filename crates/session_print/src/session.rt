//! A session printed as a text: its policy, its lines before the run, and the lines that run.

ghost use Rattle.std.specs.Prelude.{◌++◌, ◌≡◌, ◌≤◌, IfOk, length, OnOk, OnErr};
ghost use Rattle.text_lines.specs.Lines.{lines_of, line_limit};
ghost use Rattle.text_print.specs.Printed.{text_of};
ghost use Rattle.text_print.specs.Fronts.{IsFront};
ghost use Rattle.session_print.specs.Printed;
ghost use Rattle.session_print.specs.Same.{IsTextOf};

use crate::runs::put_runs;
use crate::setup::put_setup;
use flask_sid::{Memory, Piece, Text};
use policy_print::put_policy;
use session_text::{Session, SessionParts};
use std::alloc::Global;

/// The text of a session: its policy, `session`, both `initial` lines, what else is there at the start, the clients,
/// `run`, and the lines that run. Where the text has no more lines than a text may have, it reads as the same session
/// again, apart from the numbers of its lines.
pub fn print(alloc: Global, session: &Session) -> Result<Piece, Memory>
    ensures text { IfOk result (λ piece. piece ≡ Printed.printed session.now) }
    ensures again { IfOk result (λ piece. length (lines_of piece) ≤ line_limit → IsTextOf session.now piece) }
{
    let session = session.parts();
    let mut out = Text::new(alloc);
    put_policy(&mut out, session.policy.parts())?;
    put_below_policy(&mut out, session)?;
    Ok(out.into_piece())
}

fn put_below_policy(out: &mut Text, session: &SessionParts) -> Result<(), Memory>
    ensures ok { OnOk result (out.new ≡ out.old ++ text_of (Printed.lines_below_policy session.now)) }
    ensures err { OnErr result (IsFront out.old out.new) }
{
    out.extend(b"session\n")?;
    put_setup(out, session)?;
    out.extend(b"run\n")?;
    put_runs(
        out,
        session.policy.parts().contexts.as_slice(),
        session.clients.as_slice(),
        session.lines.as_slice(),
    )
}
