//! Puts the words for what a session keeps by number, each behind a space.

ghost use Rattle.std.specs.Prelude.{◌++◌, ◌≡◌, OnOk, OnErr};
ghost use Rattle.std.specs.List.{flat_map};
ghost use Rattle.text_print.specs.Printed.{behind};
ghost use Rattle.text_print.specs.Fronts.{IsFront};
ghost use Rattle.session_print.specs.Words;

use access_vectors::Vector;
use file_calls::FilePath;
use flask_sid::{Memory, Piece, Sid, Text};
use policy_model::ContextLine;
use session_forms::Manager;
use session_text::ClientLine;
use text_print::{put_context, put_word};

/// Puts the declared context that an identifier stands for.
pub fn put_label(out: &mut Text, contexts: &[ContextLine], sid: Sid) -> Result<(), Memory>
    ensures ok { OnOk result (out.new ≡ out.old ++ behind (Words.context_word contexts.now sid)) }
    ensures err { OnErr result (IsFront out.old out.new) }
{
    match contexts.get(usize::from(sid.number()) - 1) {
        Some(line) => put_context(out, &line.context),
        None => out.push(b' '),
    }
}

/// The name of the client of a number.
pub fn client_name(clients: &[ClientLine], client: u8) -> &[u8]
    ensures { result.now ≡ Words.client_word clients.now client }
{
    match clients.get(usize::from(client)) {
        Some(line) => line.name.as_bytes(),
        None => b"",
    }
}

/// Puts a path.
pub fn put_path(out: &mut Text, path: &FilePath) -> Result<(), Memory>
    ensures ok { OnOk result (out.new ≡ out.old ++ behind (Words.path_word path.now)) }
    ensures err { OnErr result (IsFront out.old out.new) }
{
    out.push(b' ')?;
    match path.as_slice() {
        [] => out.push(b'/'),
        parts => put_parts(out, parts),
    }
}

fn put_parts(out: &mut Text, parts: &[Piece]) -> Result<(), Memory>
    ensures ok { OnOk result (out.new ≡ out.old ++ flat_map Words.part_text parts.now) }
    ensures err { OnErr result (IsFront out.old out.new) }
{
    'parts: for part in parts {
        out.push(b'/')?;
        out.extend(part.as_bytes())?;
    }
    Ok(())
}

/// Puts the word of a manager.
#[inline(always)]
pub fn put_manager(out: &mut Text, manager: Manager) -> Result<(), Memory>
    ensures ok { OnOk result (out.new ≡ out.old ++ behind (Words.manager_word manager)) }
    ensures err { OnErr result (IsFront out.old out.new) }
{
    match manager {
        Manager::File => put_word(out, b"file"),
        Manager::Process => put_word(out, b"process"),
        Manager::Port => put_word(out, b"port"),
    }
}

/// Puts the mode of an open file.
#[tactic(auto, unfolding(crate::specs::Words::mode_word))]
pub fn put_mode(out: &mut Text, mode: Vector) -> Result<(), Memory>
    ensures ok { OnOk result (out.new ≡ out.old ++ behind (Words.mode_word mode)) }
    ensures err { OnErr result (IsFront out.old out.new) }
{
    match mode.bits() {
        1 => put_word(out, b"r"),
        2 => put_word(out, b"w"),
        3 => put_word(out, b"rw"),
        4 => put_word(out, b"a"),
        5 => put_word(out, b"ra"),
        6 => put_word(out, b"wa"),
        _ => put_word(out, b"rwa"),
    }
}

/// Puts the mode of a bound port.
#[tactic(auto, unfolding(crate::specs::Words::bind_word))]
pub fn put_bind_mode(out: &mut Text, mode: Vector) -> Result<(), Memory>
    ensures ok { OnOk result (out.new ≡ out.old ++ behind (Words.bind_word mode)) }
    ensures err { OnErr result (IsFront out.old out.new) }
{
    if mode.bits() == 1 {
        put_word(out, b"b")
    } else {
        put_word(out, b"br")
    }
}

/// Puts the mode of a connection.
#[tactic(auto, unfolding(crate::specs::Words::connect_word))]
pub fn put_connect_mode(out: &mut Text, mode: Vector) -> Result<(), Memory>
    ensures ok { OnOk result (out.new ≡ out.old ++ behind (Words.connect_word mode)) }
    ensures err { OnErr result (IsFront out.old out.new) }
{
    if mode.bits() == 8 {
        put_word(out, b"c")
    } else {
        put_word(out, b"cs")
    }
}
