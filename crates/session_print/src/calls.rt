//! Puts calls, each behind its client and its manager: one function for each shape of arguments.

ghost use Rattle.std.specs.Prelude.{◌≡◌, ◌++◌, [], ◌∷◌, decimal, OnOk, OnErr};
ghost use Rattle.std.specs.List.{flat_map};
ghost use Rattle.text_print.specs.Printed.{behind};
ghost use Rattle.text_print.specs.Fronts.{IsFront};
ghost use Rattle.session_forms.specs.CallNames;
ghost use Rattle.session_print.specs.Words;
ghost use Rattle.session_print.specs.CallWords;

use crate::words::{client_name, put_bind_mode, put_connect_mode, put_label, put_mode, put_path};
use access_vectors::Vector;
use file_calls::{FileCall, FilePath};
use flask_sid::{Memory, Piece, Sid, Text};
use policy_model::ContextLine;
use port_calls::PortCall;
use process_calls::ProcessCall;
use session_forms::call_names as name;
use session_text::ClientLine;
use text_print::{put_numeral, put_word};

/// Puts a call of the file manager.
#[tactic(auto, unfolding(crate::specs::CallWords::file_words))]
pub fn put_file_call(
    out: &mut Text,
    contexts: &[ContextLine],
    clients: &[ClientLine],
    call: &FileCall,
) -> Result<(), Memory>
    ensures ok { OnOk result (out.new ≡ out.old ++ flat_map behind (CallWords.file_words contexts.now clients.now call.now)) }
    ensures err { OnErr result (IsFront out.old out.new) }
{
    match call {
        FileCall::Mkdir { path } => put_on_path(out, name::MKDIR, path),
        FileCall::Create { path } => put_on_path(out, name::CREATE, path),
        FileCall::OpenFile { slot, path, mode } => put_open(out, *slot, path, *mode),
        FileCall::ReadFile {
            slot,
            offset,
            length,
        } => put_read(out, *slot, *offset, *length),
        FileCall::WriteFile {
            slot,
            offset,
            piece,
        } => put_write(out, *slot, *offset, piece),
        FileCall::AppendFile { slot, piece } => {
            put_with_datum(out, name::APPEND_FILE, u32::from(*slot), piece)
        }
        FileCall::CloseFile { slot } => put_with_number(out, name::CLOSE_FILE, u32::from(*slot)),
        FileCall::Unlink { path } => put_on_path(out, name::UNLINK, path),
        FileCall::List { path, skip } => put_list(out, path, *skip),
        FileCall::StatFile { path } => put_on_path(out, name::STAT, path),
        FileCall::Relabel { path, sid } => put_relabel(out, contexts, path, *sid),
        FileCall::Give {
            slot,
            client,
            target,
        } => put_give(out, clients, *slot, *client, *target),
    }
}

/// Puts a call of the process manager.
#[tactic(auto, unfolding(crate::specs::CallWords::process_words))]
pub fn put_process_call(
    out: &mut Text,
    contexts: &[ContextLine],
    call: &ProcessCall,
) -> Result<(), Memory>
    ensures ok { OnOk result (out.new ≡ out.old ++ flat_map behind (CallWords.process_words contexts.now call.now)) }
    ensures err { OnErr result (IsFront out.old out.new) }
{
    match *call {
        ProcessCall::Fork { pid } => put_with_number(out, name::FORK, pid),
        ProcessCall::Exec { pid, sid } => put_exec(out, contexts, pid, sid),
        ProcessCall::Signal { pid, number } => put_with_numbers(out, name::SIGNAL, pid, number),
        ProcessCall::Exit { pid, code } => put_with_numbers(out, name::EXIT, pid, code),
        ProcessCall::Wait { pid } => put_with_number(out, name::WAIT, pid),
        ProcessCall::Attach { slot, pid } => {
            put_with_numbers(out, name::ATTACH, u32::from(slot), pid)
        }
        ProcessCall::Peek { slot } => put_with_number(out, name::PEEK, u32::from(slot)),
        ProcessCall::Poke { slot, value } => {
            put_with_numbers(out, name::POKE, u32::from(slot), value)
        }
        ProcessCall::Detach { slot } => put_with_number(out, name::DETACH, u32::from(slot)),
        ProcessCall::StatProcess { pid } => put_with_number(out, name::STAT, pid),
    }
}

/// Puts a call of the port manager.
#[tactic(auto, unfolding(crate::specs::CallWords::port_words))]
pub fn put_port_call(out: &mut Text, call: &PortCall) -> Result<(), Memory>
    ensures ok { OnOk result (out.new ≡ out.old ++ flat_map behind (CallWords.port_words call.now)) }
    ensures err { OnErr result (IsFront out.old out.new) }
{
    match call {
        PortCall::Bind { slot, port, mode } => {
            put_with_numbers(out, name::BIND, u32::from(*slot), *port)?;
            put_bind_mode(out, *mode)
        }
        PortCall::Recv { slot } => put_with_number(out, name::RECV, u32::from(*slot)),
        PortCall::Connect { slot, port, mode } => {
            put_with_numbers(out, name::CONNECT, u32::from(*slot), *port)?;
            put_connect_mode(out, *mode)
        }
        PortCall::Push { slot, piece } => put_with_datum(out, name::PUSH, u32::from(*slot), piece),
        PortCall::Send { port, piece } => put_with_datum(out, name::SEND, *port, piece),
        PortCall::Unbind { slot } => put_with_number(out, name::UNBIND, u32::from(*slot)),
        PortCall::StatPort { port } => put_with_number(out, name::STAT, *port),
    }
}

fn put_on_path(out: &mut Text, call: &[u8], path: &FilePath) -> Result<(), Memory>
    ensures ok { OnOk result (out.new ≡ out.old ++ flat_map behind (call.now ∷ Words.path_word path.now ∷ [])) }
    ensures err { OnErr result (IsFront out.old out.new) }
{
    put_word(out, call)?;
    put_path(out, path)
}

fn put_with_number(out: &mut Text, call: &[u8], number: u32) -> Result<(), Memory>
    ensures ok { OnOk result (out.new ≡ out.old ++ flat_map behind (call.now ∷ decimal number ∷ [])) }
    ensures err { OnErr result (IsFront out.old out.new) }
{
    put_word(out, call)?;
    put_numeral(out, u64::from(number))
}

fn put_with_numbers(out: &mut Text, call: &[u8], first: u32, second: u32) -> Result<(), Memory>
    ensures ok { OnOk result (out.new ≡ out.old ++ flat_map behind (call.now ∷ decimal first ∷ decimal second ∷ [])) }
    ensures err { OnErr result (IsFront out.old out.new) }
{
    put_with_number(out, call, first)?;
    put_numeral(out, u64::from(second))
}

fn put_with_datum(out: &mut Text, call: &[u8], number: u32, datum: &Piece) -> Result<(), Memory>
    ensures ok { OnOk result (out.new ≡ out.old ++ flat_map behind (call.now ∷ decimal number ∷ datum.now ∷ [])) }
    ensures err { OnErr result (IsFront out.old out.new) }
{
    put_with_number(out, call, number)?;
    put_word(out, datum.as_bytes())
}

fn put_open(out: &mut Text, slot: u8, path: &FilePath, mode: Vector) -> Result<(), Memory>
    ensures ok { OnOk result (out.new ≡ out.old ++ flat_map behind
        (CallNames.open_file ∷ decimal slot ∷ Words.path_word path.now ∷ Words.mode_word mode ∷ [])) }
    ensures err { OnErr result (IsFront out.old out.new) }
{
    put_with_number(out, name::OPEN_FILE, u32::from(slot))?;
    put_path(out, path)?;
    put_mode(out, mode)
}

fn put_read(out: &mut Text, slot: u8, offset: u32, length: u32) -> Result<(), Memory>
    ensures ok { OnOk result (out.new ≡ out.old ++ flat_map behind
        (CallNames.read_file ∷ decimal slot ∷ decimal offset ∷ decimal length ∷ [])) }
    ensures err { OnErr result (IsFront out.old out.new) }
{
    put_with_numbers(out, name::READ_FILE, u32::from(slot), offset)?;
    put_numeral(out, u64::from(length))
}

fn put_write(out: &mut Text, slot: u8, offset: u32, datum: &Piece) -> Result<(), Memory>
    ensures ok { OnOk result (out.new ≡ out.old ++ flat_map behind
        (CallNames.write_file ∷ decimal slot ∷ decimal offset ∷ datum.now ∷ [])) }
    ensures err { OnErr result (IsFront out.old out.new) }
{
    put_with_numbers(out, name::WRITE_FILE, u32::from(slot), offset)?;
    put_word(out, datum.as_bytes())
}

fn put_list(out: &mut Text, path: &FilePath, skip: u32) -> Result<(), Memory>
    ensures ok { OnOk result (out.new ≡ out.old ++ flat_map behind (CallNames.list ∷ Words.path_word path.now ∷ decimal skip ∷ [])) }
    ensures err { OnErr result (IsFront out.old out.new) }
{
    put_on_path(out, name::LIST, path)?;
    put_numeral(out, u64::from(skip))
}

fn put_relabel(
    out: &mut Text,
    contexts: &[ContextLine],
    path: &FilePath,
    sid: Sid,
) -> Result<(), Memory>
    ensures ok { OnOk result (out.new ≡ out.old ++ flat_map behind
        (CallNames.relabel ∷ Words.path_word path.now ∷ Words.context_word contexts.now sid ∷ [])) }
    ensures err { OnErr result (IsFront out.old out.new) }
{
    put_on_path(out, name::RELABEL, path)?;
    put_label(out, contexts, sid)
}

fn put_give(
    out: &mut Text,
    clients: &[ClientLine],
    slot: u8,
    client: u8,
    target: u8,
) -> Result<(), Memory>
    ensures ok { OnOk result (out.new ≡ out.old ++ flat_map behind
        (CallNames.give ∷ decimal slot ∷ Words.client_word clients.now client ∷ decimal target ∷ [])) }
    ensures err { OnErr result (IsFront out.old out.new) }
{
    put_with_number(out, name::GIVE, u32::from(slot))?;
    put_word(out, client_name(clients, client))?;
    put_numeral(out, u64::from(target))
}

fn put_exec(out: &mut Text, contexts: &[ContextLine], pid: u32, sid: Sid) -> Result<(), Memory>
    ensures ok { OnOk result (out.new ≡ out.old ++ flat_map behind (CallNames.exec ∷ decimal pid ∷ Words.context_word contexts.now sid ∷ [])) }
    ensures err { OnErr result (IsFront out.old out.new) }
{
    put_with_number(out, name::EXEC, pid)?;
    put_label(out, contexts, sid)
}
