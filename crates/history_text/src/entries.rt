//! The line of an entry, and the line above a manager's entries.

ghost use Rattle.std.specs.Prelude.{◌++◌, ◌≡◌, OnOk, OnErr};
ghost use Rattle.text_print.specs.Printed.{spaced, ended};
ghost use Rattle.text_print.specs.Fronts.{IsFront};
ghost use Rattle.history_text.specs.Histories;

use answer_text::{Front, Worded, put_aborted, put_front};
use flask_sid::{Memory, SidTable, Text};
use manager_history::Entry;
use session_forms::Manager;
use session_print::put_manager;
use session_text::ClientLine;
use text_print::put_numeral;

/// Puts the line above a manager's entries, with its line end.
pub fn put_heading(out: &mut Text, manager: Manager) -> Result<(), Memory>
    ensures ok { OnOk result (out.new ≡ out.old ++ ended (Histories.heading_words manager)) }
    ensures err { OnErr result (IsFront out.old out.new) }
{
    out.extend(b"history")?;
    put_manager(out, manager)?;
    out.push(b'\n')
}

/// Puts the line of an entry of a manager's history, with its line end. Labels are identifiers of these contexts.
pub fn put_entry<K, R: Worded>(
    out: &mut Text,
    contexts: &SidTable,
    clients: &[ClientLine],
    manager: Manager,
    entry: &Entry<K, R>,
) -> Result<(), Memory>
    ensures ok { OnOk result (out.new ≡ out.old ++ ended (Histories.entry_words (R.words contexts.now) clients.now manager entry.now)) }
    ensures err { OnErr result (IsFront out.old out.new) }
{
    put_words(out, contexts, clients, manager, entry)?;
    out.push(b'\n')
}

fn put_words<K, R: Worded>(
    out: &mut Text,
    contexts: &SidTable,
    clients: &[ClientLine],
    manager: Manager,
    entry: &Entry<K, R>,
) -> Result<(), Memory>
    ensures ok { OnOk result (out.new ≡ out.old ++ spaced (Histories.entry_words (R.words contexts.now) clients.now manager entry.now)) }
    ensures err { OnErr result (IsFront out.old out.new) }
{
    match entry {
        Entry::Op {
            caller,
            mark,
            number,
            reply,
            ..
        } => {
            let front = front_of(*mark, *caller, manager, *number);
            put_front(out, clients, front)?;
            reply.put(out, contexts)
        }
        Entry::Aborted {
            caller,
            mark,
            number,
            ..
        } => {
            let front = front_of(*mark, *caller, manager, *number);
            put_front(out, clients, front)?;
            put_aborted(out)
        }
        Entry::Notice { number, version } => {
            put_event(out, b"notice", *number)?;
            put_numeral(out, u64::from(*version))
        }
        Entry::Ack { number } => put_event(out, b"ack", *number),
        Entry::Forced { number } => put_event(out, b"forced", *number),
    }
}

fn front_of(line: u32, client: u8, manager: Manager, number: u32) -> Front
    ensures { result ≡ record { line = line; client = client; manager = manager; number = number } }
{
    Front {
        line,
        client,
        manager,
        number,
    }
}

/// Puts a word of the administrator's, and a policy number.
fn put_event(out: &mut Text, word: &[u8], number: u32) -> Result<(), Memory>
    ensures ok { OnOk result (out.new ≡ out.old ++ spaced (Histories.event_words word.now number)) }
    ensures err { OnErr result (IsFront out.old out.new) }
{
    out.extend(word)?;
    put_numeral(out, u64::from(number))
}
