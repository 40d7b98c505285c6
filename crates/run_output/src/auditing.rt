//! The audit lines of a run, written client by client.

ghost use Rattle.std.specs.Prelude.{◌≡◌, ◌+◌, ◌≤◌, length, Err, OnOk, OnErr};
ghost use Rattle.std.specs.List.{flat_map};
ghost use Rattle.flask_io.specs.Streams.{Adds, HasCause};
ghost use Rattle.audit_log.specs.Texts as audit;
ghost use Rattle.run_output.specs.Logged;
ghost use Rattle.run_output.specs.Writing.{AddsFront};
ghost use Rattle.run_output.specs.declared.stop.RunStop.{RunStop};

use crate::gathering::put_gathered;
use crate::stop::{RunStop, put_line};
use audit_log::{AuditLine, AuditLog, put_text};
use flask_io::Sink;
use flask_sid::{SidTable, Text};
use session_text::ClientLine;
use std::alloc::Global;

/// Writes audit lines of a client of that name, many in one write.
fn write_client<K: Sink>(
    alloc: Global,
    contexts: &SidTable,
    name: &[u8],
    lines: &[AuditLine],
    sink: &mut K,
) -> Result<(), RunStop>
    ensures ok { OnOk result (Adds (K.written sink.old) (K.written sink.new) (flat_map (audit.line_text contexts.now name.now) lines.now)) }
    ensures err { OnErr result (AddsFront (K.written sink.old) (K.written sink.new) (flat_map (audit.line_text contexts.now name.now) lines.now)) }
    ensures cause { HasCause (K.faults sink.old) (K.faults sink.new) (result ≡ Err RunStop.WriteFault) }
{
    let mut out = Text::new(alloc);
    'lines: for line in lines {
        put_text(&mut out, line, contexts, name)?;
        put_gathered(sink, &mut out, false)?;
    }
    put_line(sink, &out)
}

/// Writes the audit lines of clients, of whom the first has that number, client by client.
pub fn write_audit<K: Sink>(
    alloc: Global,
    contexts: &SidTable,
    log: &AuditLog,
    first: u8,
    clients: &[ClientLine],
    sink: &mut K,
) -> Result<(), RunStop>
    requires all { first + length clients.now ≡ length log.now }
    requires few { length log.now ≤ 62 }
    ensures ok { OnOk result (Adds (K.written sink.old) (K.written sink.new) (Logged.logged_text contexts.now log.now first clients.now)) }
    ensures err { OnErr result (AddsFront (K.written sink.old) (K.written sink.new) (Logged.logged_text contexts.now log.now first clients.now)) }
    ensures cause { HasCause (K.faults sink.old) (K.faults sink.new) (result ≡ Err RunStop.WriteFault) }
{
    match clients {
        [] => Ok(()),
        [client, rest @ ..] => {
            write_client(alloc, contexts, client.name.as_bytes(), log.of(first), sink)?;
            write_audit(alloc, contexts, log, first + 1, rest, sink)
        }
    }
}
