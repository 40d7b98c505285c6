//! A session, run by a worker for each client and one for the administrator.

ghost use Rattle.std.specs.Prelude.{◌≡◌, ◌≤◌, ℕ, length, Err, IsTrue, IfOk, OnOk, OnErr};
ghost use Rattle.flask_io.specs.Streams.{Adds, HasCause};
ghost use Rattle.access_vectors.specs.Decisions.{Decisions};
ghost use Rattle.session_managers.specs.SessionViews.{AreOpenings};
ghost use Rattle.session_text.specs.Sessions.{IsSession, IsSidOf};
ghost use Rattle.session_text.specs.declared.session.SessionParts.{SessionParts};
ghost use Rattle.run_output.specs.Writing.{AddsFront};
ghost use Rattle.run_output.specs.declared.stop.RunStop.{RunStop};
ghost use Rattle.session_runner.specs.Runs.{openings_of};
ghost use Rattle.flaskd_run.specs.Threads;

use access_vectors::Decider;
use audit_log::AuditLog;
use client_acts::Audit;
use flask_io::Sink;
use flask_sid::{Memory, Rows, SidTable};
use policy_model::PolicyText;
use retained_rights::{AllBits, EachBits};
use run_histories::Closed;
use run_output::{RunStop, Setting};
use run_stops::Stops;
use session_runner::{RunParts, run_parts};
use session_text::{ClientLine, SessionParts};
use std::alloc::Global;
use std::sync::Wait;
use std::thread::Threads;
use thread_run::Ran;
use threaded_session::{Plan, run_plan};
use threads_print::{Histories, write_run};

/// What is left of a session that was run: what its print needs, the keepers with their histories, and the log of its audit lines.
#[derive(Drop)]
pub struct Ended<'d, D: Decider> {
    policy: PolicyText,
    clients: Rows<ClientLine>,
    audit: bool,
    closed: Closed<'d, D, EachBits, AllBits, AllBits>,
    log: AuditLog,
}

/// Runs a session on a decider, to its end. Its audit lines are told by the contexts of the policy's identifiers.
pub fn run_to_end<'d, R: Threads + Wait + Sync, D: Decider + Sync, G: Stops + Sync>(
    rt: &R,
    alloc: Global,
    session: SessionParts,
    decider: &'d D,
    contexts: &SidTable,
    stops: &G,
) -> Result<Ended<'d, D>, Memory>
    requires session { IsSession session }
    requires openings { AreOpenings (D.decides decider.now) (openings_of session) }
    requires known { (sid : ℕ) → IsSidOf session.policy.contexts sid → IsTrue ((D.decides decider.now).known sid) }
    ensures ended { IfOk result (Threads.HasEnded (D.decides decider.now) session) }
    ensures log { IfOk result (Threads.IsLogged contexts.now session) }
{
    let RunParts {
        openings,
        lines,
        policy,
        clients,
        audit,
    } = run_parts(alloc, session)?;
    let plan = Plan {
        openings,
        clients: clients.len() as u8,
        lines,
    };
    let rules = Audit {
        policy: policy.parts(),
        contexts,
        printed: audit,
    };
    let Ran { closed, log } = run_plan(rt, alloc, decider, plan, &rules, stops)?;
    Ok(Ended {
        policy,
        clients,
        audit,
        closed,
        log,
    })
}

/// Writes the text of a run that has ended, by the contexts of the policy's identifiers. Where it stops before, a front of the text was
/// written.
pub fn write_ended<R: Threads + Wait + Sync, D: Decider, K: Sink>(
    rt: &R,
    alloc: Global,
    ended: &Ended<'_, D>,
    contexts: &SidTable,
    sink: &mut K,
) -> Result<(), RunStop>
    requires few { length ended.now.clients ≤ 62 }
    requires log { length ended.now.log ≡ length ended.now.clients }
    ensures ok { (d : Decisions) (session : SessionParts) → Threads.HasEnded d session ended.now → Threads.IsLogged contexts.now session ended.now
        → OnOk result (Adds (K.written sink.old) (K.written sink.new) (Threads.text_of contexts.now session ended.now)) }
    ensures err { (d : Decisions) (session : SessionParts) → Threads.HasEnded d session ended.now → Threads.IsLogged contexts.now session ended.now
        → OnErr result (AddsFront (K.written sink.old) (K.written sink.new) (Threads.text_of contexts.now session ended.now)) }
    ensures cause { HasCause (K.faults sink.old) (K.faults sink.new) (result ≡ Err RunStop.WriteFault) }
{
    let setting = Setting {
        policy: ended.policy.parts(),
        contexts,
        clients: ended.clients.as_slice(),
        audited: ended.audit,
    };
    let histories = Histories {
        files: ended.closed.files.entries(),
        processes: ended.closed.processes.entries(),
        ports: ended.closed.ports.entries(),
        log: &ended.log,
    };
    write_run(rt, alloc, &setting, &histories, sink)
}
