//! The whole text of a threaded run.

ghost use Rattle.std.specs.Prelude.{◌≡◌, ◌≤◌, length, Err, OnOk, OnErr};
ghost use Rattle.flask_io.specs.Streams.{Adds, HasCause};
ghost use Rattle.access_vectors.specs.Decisions.{Decisions};
ghost use Rattle.session_text.specs.declared.session.SessionParts.{SessionParts};
ghost use Rattle.run_output.specs.Writing.{AddsFront};
ghost use Rattle.run_output.specs.declared.stop.RunStop.{RunStop};
ghost use Rattle.threads_text.specs.Texts;
ghost use Rattle.threads_print.specs.Printing;

use crate::audit::write_audited;
use crate::histories::{Histories, write_histories};
use crate::summary::write_summary;
use flask_io::Sink;
use run_output::{RunStop, Setting};
use std::alloc::Global;
use std::sync::Wait;
use std::thread::Threads;

/// Writes what is printed of a threaded run of a session: the three histories, the audit lines of its log where the session has them
/// printed, and the summary. Where it stops before, a front of the text was written.
pub fn write_run<R: Threads + Wait + Sync, K: Sink>(
    rt: &R,
    alloc: Global,
    setting: &Setting<'_>,
    histories: &Histories<'_>,
    sink: &mut K,
) -> Result<(), RunStop>
    requires few { length setting.now.clients.now ≤ 62 }
    requires log { length histories.now.log.now ≡ length setting.now.clients.now }
    ensures ok { (d : Decisions) (session : SessionParts)
        → Printing.IsRunOf d session setting.now histories.now.files.now histories.now.processes.now histories.now.ports.now histories.now.log.now
        → OnOk result (Adds (K.written sink.old) (K.written sink.new)
        (Texts.run_text histories.now.files.now histories.now.processes.now histories.now.ports.now setting.now.contexts.now session)) }
    ensures err { (d : Decisions) (session : SessionParts)
        → Printing.IsRunOf d session setting.now histories.now.files.now histories.now.processes.now histories.now.ports.now histories.now.log.now
        → OnErr result (AddsFront (K.written sink.old) (K.written sink.new)
        (Texts.run_text histories.now.files.now histories.now.processes.now histories.now.ports.now setting.now.contexts.now session)) }
    ensures cause { HasCause (K.faults sink.old) (K.faults sink.new) (result ≡ Err RunStop.WriteFault) }
{
    write_histories(rt, alloc, setting, histories, sink)?;
    write_audited(alloc, setting, histories.log, sink)?;
    write_summary(alloc, histories, sink)
}
