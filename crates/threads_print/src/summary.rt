//! The summary of a threaded run.

ghost use Rattle.std.specs.Prelude.{◌≡◌, ◌+◌, ◌<◌, ◌^◌, length, Err, OnOk, OnErr};
ghost use Rattle.flask_io.specs.Streams.{Adds, HasCause};
ghost use Rattle.access_vectors.specs.Decisions.{Decisions};
ghost use Rattle.session_text.specs.declared.session.SessionParts.{SessionParts};
ghost use Rattle.text_print.specs.Printed.{ended};
ghost use Rattle.run_output.specs.Writing.{AddsFront};
ghost use Rattle.run_output.specs.declared.stop.RunStop.{RunStop};
ghost use Rattle.run_histories.specs.Histories.{AreOfRun};
ghost use Rattle.threads_text.specs.Texts;

use crate::histories::Histories;
use answer_text::put_summary;
use file_calls::{FileCall, FileReply};
use flask_io::Sink;
use flask_sid::Text;
use history_text::{Counts, counts_of};
use manager_history::Entry;
use port_calls::{PortCall, PortReply};
use process_calls::{ProcessCall, ProcessReply};
use run_output::{RunStop, put_line};
use std::alloc::Global;
use threads_text::counts_of_run;

/// What the three histories of a run count. Together they have fewer entries than 64 bits count, since an entry takes some bytes.
fn counts(
    files: &[Entry<FileCall, FileReply>],
    processes: &[Entry<ProcessCall, ProcessReply>],
    ports: &[Entry<PortCall, PortReply>],
) -> Counts
    ensures { (d : Decisions) (session : SessionParts) → AreOfRun d session files.now processes.now ports.now
        → result ≡ Texts.counts_of_run files.now processes.now ports.now }
{
    have_room(files, processes, ports);
    counts_of_run(counts_of(files), counts_of(processes), counts_of(ports))
}

/// Says that three histories have fewer entries than 64 bits count, since an entry takes some bytes.
fn have_room(
    files: &[Entry<FileCall, FileReply>],
    processes: &[Entry<ProcessCall, ProcessReply>],
    ports: &[Entry<PortCall, PortReply>],
)
    ensures { length files.now + length processes.now + length ports.now < 2 ^ 64 }
{}

/// Writes a summary.
fn write_counts<K: Sink>(alloc: Global, counts: Counts, sink: &mut K) -> Result<(), RunStop>
    ensures ok { OnOk result (Adds (K.written sink.old) (K.written sink.new) (ended (Texts.summary_words counts))) }
    ensures err { OnErr result (AddsFront (K.written sink.old) (K.written sink.new) (ended (Texts.summary_words counts))) }
    ensures cause { HasCause (K.faults sink.old) (K.faults sink.new) (result ≡ Err RunStop.WriteFault) }
{
    let mut out = Text::new(alloc);
    put_summary(&mut out, counts.calls, counts.denied, counts.changes)?;
    put_line(sink, &out)
}

/// Writes the summary of the three histories of a run.
pub(crate) fn write_summary<K: Sink>(
    alloc: Global,
    histories: &Histories<'_>,
    sink: &mut K,
) -> Result<(), RunStop>
    ensures ok { (d : Decisions) (session : SessionParts) → AreOfRun d session histories.now.files.now histories.now.processes.now histories.now.ports.now
        → OnOk result (Adds (K.written sink.old) (K.written sink.new)
        (ended (Texts.summary_words (Texts.counts_of_run histories.now.files.now histories.now.processes.now histories.now.ports.now)))) }
    ensures err { (d : Decisions) (session : SessionParts) → AreOfRun d session histories.now.files.now histories.now.processes.now histories.now.ports.now
        → OnErr result (AddsFront (K.written sink.old) (K.written sink.new)
        (ended (Texts.summary_words (Texts.counts_of_run histories.now.files.now histories.now.processes.now histories.now.ports.now)))) }
    ensures cause { HasCause (K.faults sink.old) (K.faults sink.new) (result ≡ Err RunStop.WriteFault) }
{
    let counts = counts(histories.files, histories.processes, histories.ports);
    write_counts(alloc, counts, sink)
}
