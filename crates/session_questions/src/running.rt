//! A session, run in the text's order on one thread, with what each line came to.

ghost use Rattle.std.specs.Prelude.{◌≡◌, IfOk};
ghost use Rattle.policy_versions.specs.Compiling.{IsCatalogueOf, decides_of};
ghost use Rattle.session_text.specs.Sessions.{IsSession};
ghost use Rattle.session_questions.specs.LineRuns;

use crate::lines::{Keeper, LineRun};
use flask_sid::{Memory, Rows};
use policy_model::PolicyText;
use policy_versions::Catalogue;
use session_runner::{Opened, open};
use session_text::{ClientLine, SessionParts};
use std::alloc::Global;
use std::sync::Wait;

/// What each line of a session came to, with its policy and its clients.
#[derive(Drop)]
pub struct SessionRun {
    pub policy: PolicyText,
    pub clients: Rows<ClientLine>,
    pub lines: Rows<LineRun>,
}

/// Runs a session of whose policy this is the catalogue.
pub fn run_session<R: Wait>(
    rt: &R,
    alloc: Global,
    session: SessionParts,
    catalogue: &Catalogue,
) -> Result<SessionRun, Memory>
    requires session { IsSession session }
    requires compiled { IsCatalogueOf session.policy catalogue.now }
    ensures { IfOk result (λ run. run ≡ LineRuns.session_run (decides_of catalogue.now) session) }
{
    let Opened {
        mut runner,
        lines,
        policy,
        clients,
        audit: _,
    } = open(alloc, session, catalogue)?;
    let mut kept = Rows::new(alloc);
    runner.run_lines(rt, lines, &mut Keeper { alloc }, &mut kept)?;
    Ok(SessionRun {
        policy,
        clients,
        lines: kept,
    })
}
