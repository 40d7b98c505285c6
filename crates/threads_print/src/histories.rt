//! The histories of a threaded run, written entry by entry. The lines are put together in threads.

ghost use Rattle.std.specs.Prelude.{◌≡◌, Err, OnOk, OnErr};
ghost use Rattle.flask_io.specs.Streams.{Adds, HasCause};
ghost use Rattle.text_print.specs.Printed.{ended};
ghost use Rattle.history_text.specs.Histories as histories;
ghost use Rattle.run_output.specs.Writing.{AddsFront};
ghost use Rattle.run_output.specs.declared.stop.RunStop.{RunStop};
ghost use Rattle.threads_text.specs.Texts;

use answer_text::Worded;
use audit_log::AuditLog;
use file_calls::{FileCall, FileReply};
use flask_io::Sink;
use flask_sid::{Memory, Text};
use history_text::{put_entry, put_heading};
use manager_history::Entry;
use parallel_print::{Wording, write_all};
use port_calls::{PortCall, PortReply};
use process_calls::{ProcessCall, ProcessReply};
use run_output::{RunStop, Setting, put_line};
use session_forms::Manager;
use std::alloc::Global;
use std::sync::Wait;
use std::thread::Threads;

/// The histories of the three managers, oldest entry first, and the log of their audit lines.
#[derive(Clone, Copy)]
pub struct Histories<'a> {
    pub files: &'a [Entry<FileCall, FileReply>],
    pub processes: &'a [Entry<ProcessCall, ProcessReply>],
    pub ports: &'a [Entry<PortCall, PortReply>],
    pub log: &'a AuditLog,
}

/// What puts the line of an entry of a manager's history together.
#[derive(Clone, Copy)]
struct EntryLine<'a> {
    setting: &'a Setting<'a>,
    manager: Manager,
}

impl<'a, C, R: Worded> Wording<Entry<C, R>> for EntryLine<'a> {
    ghost use Rattle.threads_print.specs.Printing.{entry_text};

    ghost text = { λ line entry. entry_text (R.words line.setting.now.contexts.now) line.setting.now.clients.now line.manager entry };

    fn put(&self, out: &mut Text, entry: &Entry<C, R>) -> Result<(), Memory> {
        let setting = self.setting;
        put_entry(out, setting.contexts, setting.clients, self.manager, entry)
    }
}

/// Writes the line above a manager's entries.
fn write_heading<K: Sink>(alloc: Global, manager: Manager, sink: &mut K) -> Result<(), RunStop>
    ensures ok { OnOk result (Adds (K.written sink.old) (K.written sink.new) (ended (histories.heading_words manager))) }
    ensures err { OnErr result (AddsFront (K.written sink.old) (K.written sink.new) (ended (histories.heading_words manager))) }
    ensures cause { HasCause (K.faults sink.old) (K.faults sink.new) (result ≡ Err RunStop.WriteFault) }
{
    let mut out = Text::new(alloc);
    put_heading(&mut out, manager)?;
    put_line(sink, &out)
}

/// Writes a manager's history: the line above its entries, and the line of each. Where it stops before, a front of the text was
/// written.
fn write_history<T: Threads + Wait + Sync, C: Sync, R: Worded + Sync, K: Sink>(
    rt: &T,
    alloc: Global,
    line: &EntryLine<'_>,
    history: &[Entry<C, R>],
    sink: &mut K,
) -> Result<(), RunStop>
    ensures ok { OnOk result (Adds (K.written sink.old) (K.written sink.new)
        (histories.history_text (R.words line.now.setting.now.contexts.now) line.now.setting.now.clients.now line.now.manager history.now)) }
    ensures err { OnErr result (AddsFront (K.written sink.old) (K.written sink.new)
        (histories.history_text (R.words line.now.setting.now.contexts.now) line.now.setting.now.clients.now line.now.manager history.now)) }
    ensures cause { HasCause (K.faults sink.old) (K.faults sink.new) (result ≡ Err RunStop.WriteFault) }
{
    write_heading(alloc, line.manager, sink)?;
    write_all(rt, alloc, line, history, sink)
}

/// Writes the histories of the three managers, one after another. Where it stops before, a front of the text was written.
pub(crate) fn write_histories<T: Threads + Wait + Sync, K: Sink>(
    rt: &T,
    alloc: Global,
    setting: &Setting<'_>,
    histories: &Histories<'_>,
    sink: &mut K,
) -> Result<(), RunStop>
    ensures ok { OnOk result (Adds (K.written sink.old) (K.written sink.new)
        (Texts.histories_text histories.now.files.now histories.now.processes.now histories.now.ports.now setting.now.contexts.now setting.now.clients.now)) }
    ensures err { OnErr result (AddsFront (K.written sink.old) (K.written sink.new)
        (Texts.histories_text histories.now.files.now histories.now.processes.now histories.now.ports.now setting.now.contexts.now setting.now.clients.now)) }
    ensures cause { HasCause (K.faults sink.old) (K.faults sink.new) (result ≡ Err RunStop.WriteFault) }
{
    let of_files = EntryLine {
        setting,
        manager: Manager::File,
    };
    let of_processes = EntryLine {
        setting,
        manager: Manager::Process,
    };
    let of_ports = EntryLine {
        setting,
        manager: Manager::Port,
    };
    write_history(rt, alloc, &of_files, histories.files, sink)?;
    write_history(rt, alloc, &of_processes, histories.processes, sink)?;
    write_history(rt, alloc, &of_ports, histories.ports, sink)
}
