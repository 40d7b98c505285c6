//! Puts the lines that run.

ghost use Rattle.std.specs.Prelude.{◌≡◌, ◌++◌, OnOk, OnErr};
ghost use Rattle.text_print.specs.Printed.{behind, spaced, ended};
ghost use Rattle.text_print.specs.Fronts.{IsFront};
ghost use Rattle.policy_print.specs.Printed.{texts_of};
ghost use Rattle.session_print.specs.Words;
ghost use Rattle.session_print.specs.Printed;

use crate::calls::{put_file_call, put_port_call, put_process_call};
use crate::words::{client_name, put_manager};
use flask_sid::{Memory, Text};
use policy_model::ContextLine;
use session_forms::Manager;
use session_text::{ClientLine, Run, RunLine};
use text_print::{put_numeral, put_word};

/// Puts each line that runs.
pub fn put_runs(
    out: &mut Text,
    contexts: &[ContextLine],
    clients: &[ClientLine],
    lines: &[RunLine],
) -> Result<(), Memory>
    ensures ok { OnOk result (out.new ≡ out.old ++ texts_of (Printed.run_line_words contexts.now clients.now) lines.now) }
    ensures err { OnErr result (IsFront out.old out.new) }
{
    'lines: for line in lines {
        put_run(out, contexts, clients, &line.run)?;
        out.push(b'\n')?;
    }
    Ok(())
}

fn put_run(
    out: &mut Text,
    contexts: &[ContextLine],
    clients: &[ClientLine],
    run: &Run,
) -> Result<(), Memory>
    ensures ok { OnOk result (out.new ≡ out.old ++ spaced (Printed.run_words contexts.now clients.now run.now)) }
    ensures err { OnErr result (IsFront out.old out.new) }
{
    match run {
        Run::File { client, call } => {
            put_asked(out, clients, *client, Manager::File)?;
            put_file_call(out, contexts, clients, call)
        }
        Run::Process { client, call } => {
            put_asked(out, clients, *client, Manager::Process)?;
            put_process_call(out, contexts, call)
        }
        Run::Port { client, call } => {
            put_asked(out, clients, *client, Manager::Port)?;
            put_port_call(out, call)
        }
        Run::Begin { client, manager } => {
            put_asked(out, clients, *client, *manager)?;
            put_word(out, b"begin")
        }
        Run::End { client, manager } => {
            put_asked(out, clients, *client, *manager)?;
            put_word(out, b"end")
        }
        Run::Notify { ver } => {
            out.extend(b"admin notify")?;
            put_numeral(out, u64::from(*ver))
        }
        Run::Update { k } => {
            out.extend(b"admin update")?;
            put_numeral(out, u64::from(*k))
        }
        Run::Ack => out.extend(b"admin ack"),
        Run::Force => out.extend(b"admin force"),
    }
}

// A client, and the manager that it asks.
fn put_asked(
    out: &mut Text,
    clients: &[ClientLine],
    client: u8,
    manager: Manager,
) -> Result<(), Memory>
    ensures ok { OnOk result (out.new ≡ out.old ++ (Words.client_word clients.now client ++ behind (Words.manager_word manager))) }
    ensures err { OnErr result (IsFront out.old out.new) }
{
    out.extend(client_name(clients, client))?;
    put_manager(out, manager)
}
