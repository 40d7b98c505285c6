//! The table of calls: the words of each call behind its name, and the call that they make.

ghost use Rattle.std.specs.Prelude.{◌≡◌};
ghost use Rattle.text_lines.specs.Refusals.{Gives};
ghost use Rattle.session_forms.specs.Arguments;
ghost use Rattle.session_forms.specs.ArgumentTypes;
ghost use Rattle.session_text.specs.Calls;

use crate::running::Running;
use file_calls::{FileCall, FilePath};
use flask_sid::{Piece, Sid, Word, context_form};
use port_calls::PortCall;
use process_calls::ProcessCall;
use session_forms::{
    bind_mode_of, both, call_names as name, code_of, connect_mode_of, datum_of, entry_of, judged,
    length_of, mode_of, offset_of, one_word, path_of, pid_of, port_of, signal_of, skip_of, slot_of,
    three_words, two_words, value_of,
};
use std::alloc::Global;
use text_lines::{FaultKind, Refusal, Words};

/// A context, by its identifier. `Syntax` where the word is none, `Limit` where it is too long, `Undeclared` where no
/// line declares it.
#[tactic(auto, unfolding(crate::specs::Calls::context_of))]
fn context_of<'a>(running: &Running<'a>, word: &Word<'a>) -> Result<Sid, FaultKind>
    ensures { result ≡ Calls.context_of running.now.policy.contexts word.now }
{
    let Some(context) = context_form(word.as_bytes()) else {
        return Err(FaultKind::Syntax);
    };
    if context.is_long() {
        return Err(FaultKind::Limit);
    }
    match running.sid(&context) {
        None => Err(FaultKind::Undeclared),
        Some(sid) => Ok(sid),
    }
}

/// A client, by its number. `Limit` where its name is too long, `Unknown` where no line declares it.
#[tactic(auto, unfolding(crate::specs::Calls::client_of))]
pub(crate) fn client_of<'a>(running: &Running<'a>, word: &Word<'a>) -> Result<u8, FaultKind>
    ensures { result ≡ Calls.client_of running.now.clients word.now }
{
    if word.is_long() {
        return Err(FaultKind::Limit);
    }
    match running.number(word) {
        None => Err(FaultKind::Unknown),
        Some(client) => Ok(client),
    }
}

/// The receiver of a slot. `Syntax` where the word has not the form of a name.
#[tactic(auto, unfolding(crate::specs::Calls::receiver_of))]
fn receiver_of<'a>(running: &Running<'a>, word: &Word<'a>) -> Result<u8, FaultKind>
    ensures { result ≡ Calls.receiver_of running.now.clients word.now }
{
    if word.is_name_form() {
        client_of(running, word)
    } else {
        Err(FaultKind::Syntax)
    }
}

/// A call of the file manager.
#[tactic(auto, unfolding(crate::specs::Calls::file_call))]
pub(crate) fn file_call<'a>(
    alloc: Global,
    running: &Running<'a>,
    call: &Word<'a>,
    words: Words<'a>,
) -> Result<FileCall, Refusal>
    ensures { Gives result (Calls.file_call running.now.policy.contexts running.now.clients call.now words.entry) }
{
    if call.is(name::MKDIR) {
        let path = kept_entry(alloc, words)?;
        return Ok(FileCall::Mkdir { path });
    }
    if call.is(name::CREATE) {
        let path = kept_entry(alloc, words)?;
        return Ok(FileCall::Create { path });
    }
    if call.is(name::OPEN_FILE) {
        return open_call(alloc, words);
    }
    if call.is(name::READ_FILE) {
        return judged(read_call(words));
    }
    if call.is(name::WRITE_FILE) {
        return write_call(alloc, words);
    }
    if call.is(name::APPEND_FILE) {
        return append_call(alloc, words);
    }
    if call.is(name::CLOSE_FILE) {
        return judged(close_call(words));
    }
    if call.is(name::UNLINK) {
        let path = kept_entry(alloc, words)?;
        return Ok(FileCall::Unlink { path });
    }
    if call.is(name::LIST) {
        return list_call(alloc, words);
    }
    if call.is(name::STAT) {
        let path = kept_path(alloc, words)?;
        return Ok(FileCall::StatFile { path });
    }
    if call.is(name::RELABEL) {
        return relabel_call(alloc, running, words);
    }
    if call.is(name::GIVE) {
        return judged(give_call(running, words));
    }
    Err(Refusal::Fault(FaultKind::Syntax))
}

/// A path alone, kept.
fn kept_path(alloc: Global, words: Words<'_>) -> Result<FilePath, Refusal>
    ensures { Gives result (Arguments.of_one ArgumentTypes.path_of words.entry) }
{
    let word = judged(one_word(words))?;
    let path = judged(path_of(&word))?;
    Ok(path.kept(alloc)?)
}

/// A path below the root alone, kept.
fn kept_entry(alloc: Global, words: Words<'_>) -> Result<FilePath, Refusal>
    ensures { Gives result (Arguments.of_one ArgumentTypes.entry_of words.entry) }
{
    let word = judged(one_word(words))?;
    let path = judged(entry_of(&word))?;
    Ok(path.kept(alloc)?)
}

/// `open SLOT PATH MODE`
fn open_call(alloc: Global, words: Words<'_>) -> Result<FileCall, Refusal>
    ensures { Gives result (Calls.open_call words.entry) }
{
    let (slot, path, mode) = judged(three_words(words))?;
    let rest = both(path_of(&path), mode_of(&mode));
    let (slot, (path, mode)) = judged(both(slot_of(&slot), rest))?;
    let path = path.kept(alloc)?;
    Ok(FileCall::OpenFile { slot, path, mode })
}

/// `read SLOT OFFSET LENGTH`
fn read_call(words: Words<'_>) -> Result<FileCall, FaultKind>
    ensures { result ≡ Calls.read_call words.entry }
{
    let (slot, offset, length) = three_words(words)?;
    let range = both(offset_of(&offset), length_of(&length));
    let (slot, (offset, length)) = both(slot_of(&slot), range)?;
    Ok(FileCall::ReadFile {
        slot,
        offset,
        length,
    })
}

/// `write SLOT OFFSET DATA`
fn write_call(alloc: Global, words: Words<'_>) -> Result<FileCall, Refusal>
    ensures { Gives result (Calls.write_call words.entry) }
{
    let (slot, offset, datum) = judged(three_words(words))?;
    let rest = both(offset_of(&offset), datum_of(datum));
    let (slot, (offset, datum)) = judged(both(slot_of(&slot), rest))?;
    let piece = Piece::of(alloc, datum.as_bytes())?;
    Ok(FileCall::WriteFile {
        slot,
        offset,
        piece,
    })
}

/// `append SLOT DATA`
fn append_call(alloc: Global, words: Words<'_>) -> Result<FileCall, Refusal>
    ensures { Gives result (Calls.append_call words.entry) }
{
    let (slot, datum) = judged(two_words(words))?;
    let (slot, datum) = judged(both(slot_of(&slot), datum_of(datum)))?;
    let piece = Piece::of(alloc, datum.as_bytes())?;
    Ok(FileCall::AppendFile { slot, piece })
}

/// `close SLOT`
fn close_call(words: Words<'_>) -> Result<FileCall, FaultKind>
    ensures { result ≡ Calls.close_call words.entry }
{
    let slot = slot_of(&one_word(words)?)?;
    Ok(FileCall::CloseFile { slot })
}

/// `list PATH SKIP`
fn list_call(alloc: Global, words: Words<'_>) -> Result<FileCall, Refusal>
    ensures { Gives result (Calls.list_call words.entry) }
{
    let (path, skip) = judged(two_words(words))?;
    let (path, skip) = judged(both(path_of(&path), skip_of(&skip)))?;
    let path = path.kept(alloc)?;
    Ok(FileCall::List { path, skip })
}

/// `relabel PATH CONTEXT`
fn relabel_call<'a>(
    alloc: Global,
    running: &Running<'a>,
    words: Words<'a>,
) -> Result<FileCall, Refusal>
    ensures { Gives result (Calls.relabel_call running.now.policy.contexts words.entry) }
{
    let (path, context) = judged(two_words(words))?;
    let (path, sid) = judged(both(path_of(&path), context_of(running, &context)))?;
    let path = path.kept(alloc)?;
    Ok(FileCall::Relabel { path, sid })
}

/// `give SLOT CLIENT SLOT`
fn give_call<'a>(running: &Running<'a>, words: Words<'a>) -> Result<FileCall, FaultKind>
    ensures { result ≡ Calls.give_call running.now.clients words.entry }
{
    let (slot, client, target) = three_words(words)?;
    let rest = both(receiver_of(running, &client), slot_of(&target));
    let (slot, (client, target)) = both(slot_of(&slot), rest)?;
    Ok(FileCall::Give {
        slot,
        client,
        target,
    })
}

/// A call of the process manager.
#[tactic(auto, unfolding(crate::specs::Calls::process_call))]
pub(crate) fn process_call<'a>(
    running: &Running<'a>,
    call: &Word<'a>,
    words: Words<'a>,
) -> Result<ProcessCall, FaultKind>
    ensures { result ≡ Calls.process_call running.now.policy.contexts call.now words.entry }
{
    if call.is(name::FORK) {
        let pid = only_pid(words)?;
        return Ok(ProcessCall::Fork { pid });
    }
    if call.is(name::EXEC) {
        return exec_call(running, words);
    }
    if call.is(name::SIGNAL) {
        return signal_call(words);
    }
    if call.is(name::EXIT) {
        return exit_call(words);
    }
    if call.is(name::WAIT) {
        let pid = only_pid(words)?;
        return Ok(ProcessCall::Wait { pid });
    }
    if call.is(name::ATTACH) {
        return attach_call(words);
    }
    if call.is(name::PEEK) {
        let slot = only_slot(words)?;
        return Ok(ProcessCall::Peek { slot });
    }
    if call.is(name::POKE) {
        return poke_call(words);
    }
    if call.is(name::DETACH) {
        let slot = only_slot(words)?;
        return Ok(ProcessCall::Detach { slot });
    }
    if call.is(name::STAT) {
        let pid = only_pid(words)?;
        return Ok(ProcessCall::StatProcess { pid });
    }
    Err(FaultKind::Syntax)
}

/// A slot alone.
fn only_slot(words: Words<'_>) -> Result<u8, FaultKind>
    ensures { result ≡ Arguments.of_one ArgumentTypes.slot_of words.entry }
{
    slot_of(&one_word(words)?)
}

/// The number of a process alone.
fn only_pid(words: Words<'_>) -> Result<u32, FaultKind>
    ensures { result ≡ Arguments.of_one ArgumentTypes.pid_of words.entry }
{
    pid_of(&one_word(words)?)
}

/// `exec PID CONTEXT`
fn exec_call<'a>(running: &Running<'a>, words: Words<'a>) -> Result<ProcessCall, FaultKind>
    ensures { result ≡ Calls.exec_call running.now.policy.contexts words.entry }
{
    let (pid, context) = two_words(words)?;
    let (pid, sid) = both(pid_of(&pid), context_of(running, &context))?;
    Ok(ProcessCall::Exec { pid, sid })
}

/// `signal PID NUMBER`
fn signal_call(words: Words<'_>) -> Result<ProcessCall, FaultKind>
    ensures { result ≡ Calls.signal_call words.entry }
{
    let (pid, number) = two_words(words)?;
    let (pid, number) = both(pid_of(&pid), signal_of(&number))?;
    Ok(ProcessCall::Signal { pid, number })
}

/// `exit PID CODE`
fn exit_call(words: Words<'_>) -> Result<ProcessCall, FaultKind>
    ensures { result ≡ Calls.exit_call words.entry }
{
    let (pid, code) = two_words(words)?;
    let (pid, code) = both(pid_of(&pid), code_of(&code))?;
    Ok(ProcessCall::Exit { pid, code })
}

/// `attach SLOT PID`
fn attach_call(words: Words<'_>) -> Result<ProcessCall, FaultKind>
    ensures { result ≡ Calls.attach_call words.entry }
{
    let (slot, pid) = two_words(words)?;
    let (slot, pid) = both(slot_of(&slot), pid_of(&pid))?;
    Ok(ProcessCall::Attach { slot, pid })
}

/// `poke SLOT VALUE`
fn poke_call(words: Words<'_>) -> Result<ProcessCall, FaultKind>
    ensures { result ≡ Calls.poke_call words.entry }
{
    let (slot, value) = two_words(words)?;
    let (slot, value) = both(slot_of(&slot), value_of(&value))?;
    Ok(ProcessCall::Poke { slot, value })
}

/// A call of the port manager.
#[tactic(auto, unfolding(crate::specs::Calls::port_call))]
pub(crate) fn port_call(
    alloc: Global,
    call: &Word<'_>,
    words: Words<'_>,
) -> Result<PortCall, Refusal>
    ensures { Gives result (Calls.port_call call.now words.entry) }
{
    if call.is(name::BIND) {
        return judged(bind_call(words));
    }
    if call.is(name::RECV) {
        let slot = judged(only_slot(words))?;
        return Ok(PortCall::Recv { slot });
    }
    if call.is(name::CONNECT) {
        return judged(connect_call(words));
    }
    if call.is(name::PUSH) {
        return push_call(alloc, words);
    }
    if call.is(name::SEND) {
        return send_call(alloc, words);
    }
    if call.is(name::UNBIND) {
        let slot = judged(only_slot(words))?;
        return Ok(PortCall::Unbind { slot });
    }
    if call.is(name::STAT) {
        let port = judged(only_port(words))?;
        return Ok(PortCall::StatPort { port });
    }
    Err(Refusal::Fault(FaultKind::Syntax))
}

/// The number of a port alone.
fn only_port(words: Words<'_>) -> Result<u32, FaultKind>
    ensures { result ≡ Arguments.of_one ArgumentTypes.port_of words.entry }
{
    port_of(&one_word(words)?)
}

/// `bind SLOT PORT MODE`
fn bind_call(words: Words<'_>) -> Result<PortCall, FaultKind>
    ensures { result ≡ Calls.bind_call words.entry }
{
    let (slot, port, mode) = three_words(words)?;
    let rest = both(port_of(&port), bind_mode_of(&mode));
    let (slot, (port, mode)) = both(slot_of(&slot), rest)?;
    Ok(PortCall::Bind { slot, port, mode })
}

/// `connect SLOT PORT MODE`
fn connect_call(words: Words<'_>) -> Result<PortCall, FaultKind>
    ensures { result ≡ Calls.connect_call words.entry }
{
    let (slot, port, mode) = three_words(words)?;
    let rest = both(port_of(&port), connect_mode_of(&mode));
    let (slot, (port, mode)) = both(slot_of(&slot), rest)?;
    Ok(PortCall::Connect { slot, port, mode })
}

/// `push SLOT DATA`
fn push_call(alloc: Global, words: Words<'_>) -> Result<PortCall, Refusal>
    ensures { Gives result (Calls.push_call words.entry) }
{
    let (slot, datum) = judged(two_words(words))?;
    let (slot, datum) = judged(both(slot_of(&slot), datum_of(datum)))?;
    let piece = Piece::of(alloc, datum.as_bytes())?;
    Ok(PortCall::Push { slot, piece })
}

/// `send PORT DATA`
fn send_call(alloc: Global, words: Words<'_>) -> Result<PortCall, Refusal>
    ensures { Gives result (Calls.send_call words.entry) }
{
    let (port, datum) = judged(two_words(words))?;
    let (port, datum) = judged(both(port_of(&port), datum_of(datum)))?;
    let piece = Piece::of(alloc, datum.as_bytes())?;
    Ok(PortCall::Send { port, piece })
}
