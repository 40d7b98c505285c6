//! What is printed where all lines were run.

ghost use Rattle.std.specs.Prelude.{◌≡◌, ◌≤◌, ◌++◌, length, Err, OnOk, OnErr};
ghost use Rattle.answer_text.specs.Summaries.{summary_words};
ghost use Rattle.flask_io.specs.Streams.{Adds, HasCause};
ghost use Rattle.run_output.specs.Logged.{logged_text};
ghost use Rattle.run_output.specs.Writing.{AddsFront};
ghost use Rattle.run_output.specs.declared.stop.RunStop.{RunStop};
ghost use Rattle.text_print.specs.Printed.{ended};

use crate::printing::Printing;
use answer_text::put_summary;
use flask_io::Sink;
use flask_sid::Text;
use run_output::{RunStop, put_line, write_audit};
use std::alloc::Global;

/// Writes the line of a summary: calls, calls denied, changes complete.
pub(crate) fn write_counts<K: Sink>(
    alloc: Global,
    counts: (u64, u64, u64),
    sink: &mut K,
) -> Result<(), RunStop>
    ensures ok { OnOk result (Adds (K.written sink.old) (K.written sink.new) (ended (summary_words counts.0 counts.1 counts.2))) }
    ensures err { OnErr result (AddsFront (K.written sink.old) (K.written sink.new) (ended (summary_words counts.0 counts.1 counts.2))) }
    ensures cause { HasCause (K.faults sink.old) (K.faults sink.new) (result ≡ Err RunStop.WriteFault) }
{
    let (calls, denied, changes) = counts;
    let mut out = Text::new(alloc);
    put_summary(&mut out, calls, denied, changes)?;
    put_line(sink, &out)
}

/// Writes the answers that wait, the audit lines that were logged, client by client, and the summary.
pub(crate) fn write_end<K: Sink>(
    alloc: Global,
    printing: &Printing<'_>,
    counts: (u64, u64, u64),
    sink: &mut K,
) -> Result<(), RunStop>
    requires log { length printing.now.setting.clients.now ≡ length printing.now.log }
    requires few { length printing.now.log ≤ 62 }
    ensures ok { OnOk result (Adds (K.written sink.old) (K.written sink.new)
        (printing.now.gathered ++ (logged_text printing.now.setting.contexts.now printing.now.log 0 printing.now.setting.clients.now ++ ended (summary_words counts.0 counts.1 counts.2)))) }
    ensures err { OnErr result (AddsFront (K.written sink.old) (K.written sink.new)
        (printing.now.gathered ++ (logged_text printing.now.setting.contexts.now printing.now.log 0 printing.now.setting.clients.now ++ ended (summary_words counts.0 counts.1 counts.2)))) }
    ensures cause { HasCause (K.faults sink.old) (K.faults sink.new) (result ≡ Err RunStop.WriteFault) }
{
    put_line(sink, &printing.gathered)?;
    let setting = &printing.setting;
    write_audit(
        alloc,
        setting.contexts,
        &printing.log,
        0,
        setting.clients,
        sink,
    )?;
    write_counts(alloc, counts, sink)
}
