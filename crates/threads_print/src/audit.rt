//! The audit lines of a threaded run, client by client, each client's in the order of its script.

ghost use Rattle.std.specs.Prelude.{◌≡◌, ◌≤◌, length, List, Err, OnOk, OnErr};
ghost use Rattle.flask_io.specs.Streams.{Adds, HasCause};
ghost use Rattle.access_vectors.specs.Decisions.{Decisions};
ghost use Rattle.manager_history.specs.declared.entry.Entry.{Entry};
ghost use Rattle.file_calls.specs.declared.call.FileCall.{FileCall};
ghost use Rattle.file_calls.specs.declared.call.FileReply.{FileReply};
ghost use Rattle.process_calls.specs.declared.call.ProcessCall.{ProcessCall};
ghost use Rattle.process_calls.specs.declared.call.ProcessReply.{ProcessReply};
ghost use Rattle.port_calls.specs.declared.call.PortCall.{PortCall};
ghost use Rattle.port_calls.specs.declared.call.PortReply.{PortReply};
ghost use Rattle.session_text.specs.declared.session.SessionParts.{SessionParts};
ghost use Rattle.run_output.specs.Writing.{AddsFront};
ghost use Rattle.run_output.specs.declared.stop.RunStop.{RunStop};
ghost use Rattle.threads_text.specs.Texts;
ghost use Rattle.threads_print.specs.Printing.{IsRunOf};

use audit_log::AuditLog;
use flask_io::Sink;
use run_output::{RunStop, Setting, write_audit};
use std::alloc::Global;

/// Writes the audit lines of a run from its log, where the session has them printed: client by client, each client's in the order of its
/// script. They are those of the histories of the run. Where it stops before, a front of the text was written.
pub(crate) fn write_audited<K: Sink>(
    alloc: Global,
    setting: &Setting<'_>,
    log: &AuditLog,
    sink: &mut K,
) -> Result<(), RunStop>
    requires few { length setting.now.clients.now ≤ 62 }
    requires log { length log.now ≡ length setting.now.clients.now }
    ensures ok { (d : Decisions) (session : SessionParts) (files : List (Entry FileCall FileReply)) (processes : List (Entry ProcessCall ProcessReply)) (ports : List (Entry PortCall PortReply))
        → IsRunOf d session setting.now files processes ports log.now
        → OnOk result (Adds (K.written sink.old) (K.written sink.new) (Texts.run_audit files processes ports setting.now.contexts.now session)) }
    ensures err { (d : Decisions) (session : SessionParts) (files : List (Entry FileCall FileReply)) (processes : List (Entry ProcessCall ProcessReply)) (ports : List (Entry PortCall PortReply))
        → IsRunOf d session setting.now files processes ports log.now
        → OnErr result (AddsFront (K.written sink.old) (K.written sink.new) (Texts.run_audit files processes ports setting.now.contexts.now session)) }
    ensures cause { HasCause (K.faults sink.old) (K.faults sink.new) (result ≡ Err RunStop.WriteFault) }
{
    if !setting.audited {
        return Ok(());
    }
    write_audit(alloc, setting.contexts, log, 0, setting.clients, sink)
}
