//! A session is opened: its managers, and the rest of it.

ghost use Rattle.std.specs.Prelude.{◌≡◌, ℕ, map, IsTrue, IfOk};
ghost use Rattle.session_text.specs.Sessions.{IsSession, IsSidOf};
ghost use Rattle.session_text.specs.declared.session.ClientLine.{ClientLine};
ghost use Rattle.session_runner.specs.Runs;
ghost use Rattle.session_runner.specs.Opened.{AreRunParts, IsOpened};

use crate::runner::Runner;
use access_vectors::Decider;
use file_calls::{FileOpening, Node};
use flask_sid::{Memory, Rows, Sid};
use policy_model::PolicyText;
use port_calls::{LabelledPort, PortOpening};
use process_calls::ProcessOpening;
use session_managers::Openings;
use session_text::{ClientLine, RunLine, SessionParts};
use std::alloc::Global;

/// What the managers of a session find besides its clients: the label of the root, the nodes below it, the label of ports without a
/// line, and the ports with one.
#[derive(Drop)]
pub(crate) struct FirstObjects {
    pub(crate) root: Sid,
    pub(crate) nodes: Rows<Node>,
    pub(crate) port: Sid,
    pub(crate) ports: Rows<LabelledPort>,
}

/// What a session is run from: what its managers are opened with, its lines, and what a print of them needs.
#[derive(Drop)]
pub struct RunParts {
    pub openings: Openings,
    pub lines: Vec<RunLine>,
    pub policy: PolicyText,
    pub clients: Rows<ClientLine>,
    /// Whether audit lines are printed.
    pub audit: bool,
}

/// A session that is opened: the runner of its lines, the lines, and what a print of them needs.
#[derive(Drop)]
pub struct Opened<'d, D: Decider> {
    pub runner: Runner<'d, D>,
    pub lines: Vec<RunLine>,
    pub policy: PolicyText,
    pub clients: Rows<ClientLine>,
    /// Whether audit lines are printed.
    pub audit: bool,
}

/// What the managers are opened with: a client acts as its context, and the root and ports without a line have theirs.
fn openings_of(
    alloc: Global,
    first: FirstObjects,
    clients: &[ClientLine],
) -> Result<Openings, Memory>
    ensures { IfOk result (λ openings. openings ≡ Runs.openings_with first clients.now) }
{
    let FirstObjects {
        root,
        nodes,
        port,
        ports,
    } = first;
    Ok(Openings {
        files: FileOpening {
            clients: sids_of(alloc, clients)?,
            root,
            nodes,
        },
        processes: ProcessOpening {
            clients: sids_of(alloc, clients)?,
        },
        ports: PortOpening {
            clients: sids_of(alloc, clients)?,
            initial: port,
            ports,
        },
    })
}

fn sids_of(alloc: Global, clients: &[ClientLine]) -> Result<Rows<Sid>, Memory>
    ensures { IfOk result (λ sids. sids ≡ map (λ (client : ClientLine). client.sid) clients.now) }
{
    let sids: Vec<Sid> = clients.iter().map(|client| client.sid).collect(alloc)?;
    Ok(Rows::from_vec(sids))
}

/// Takes a session apart into what it is run from.
pub fn run_parts(alloc: Global, session: SessionParts) -> Result<RunParts, Memory>
    ensures { IfOk result (AreRunParts session) }
{
    let SessionParts {
        policy,
        root,
        port,
        ports,
        audit,
        nodes,
        clients,
        lines,
    } = session;
    let first = FirstObjects {
        root,
        nodes,
        port,
        ports,
    };
    let openings = openings_of(alloc, first, clients.as_slice())?;
    Ok(RunParts {
        openings,
        lines: lines.into_vec(),
        policy,
        clients,
        audit,
    })
}

/// Opens a session on a decider, to which its declared contexts are known.
pub fn open<'d, D: Decider>(
    alloc: Global,
    session: SessionParts,
    decider: &'d D,
) -> Result<Opened<'d, D>, Memory>
    requires session { IsSession session }
    requires known { (sid : ℕ) → IsSidOf session.policy.contexts sid → IsTrue ((D.decides decider.now).known sid) }
    ensures { IfOk result (IsOpened D.decides decider.now session) }
{
    let RunParts {
        openings,
        lines,
        policy,
        clients,
        audit,
    } = run_parts(alloc, session)?;
    let runner = Runner::new(alloc, decider, openings, clients.len())?;
    Ok(Opened {
        runner,
        lines,
        policy,
        clients,
        audit,
    })
}
