//! What a line came to, as a line of words.

ghost use Rattle.std.specs.Prelude.{◌≡◌, ◌++◌, ◌∷◌, [], OnOk, OnErr};
ghost use Rattle.text_print.specs.Printed.{spaced, ended};
ghost use Rattle.session_managers.specs.One.{got_answer};
ghost use Rattle.answer_text.specs.Fronts.{front_words};
ghost use Rattle.text_print.specs.Fronts.{IsFront};
ghost use Rattle.line_text.specs.Answers;

use crate::changes::{put_acks, put_notice, put_updated};
use answer_text::{Front, Worded, put_aborted, put_front};
use flask_sid::{Memory, SidTable, Text};
use session_forms::Manager;
use session_managers::Got;
use session_runner::{Called, Caller, LineAnswer};
use session_text::ClientLine;
use text_lines::put_number;
use text_print::put_word;

/// Puts what the line of a number came to, with its line end. Labels are identifiers of these contexts.
#[inline(always)]
pub fn put_answer(
    out: &mut Text,
    contexts: &SidTable,
    clients: &[ClientLine],
    line: u32,
    answer: &LineAnswer,
) -> Result<(), Memory>
    ensures ok { OnOk result (out.new ≡ out.old ++ ended (Answers.answer_words contexts.now clients.now line answer.now)) }
    ensures err { OnErr result (IsFront out.old out.new) }
{
    match answer {
        LineAnswer::Replied {
            client,
            manager,
            number,
            got,
        } => {
            let front = front_of(line, *client, *manager, *number);
            put_call(out, contexts, clients, front, Got::of(got))
        }
        LineAnswer::Begun {
            client,
            manager,
            number,
        } => {
            let front = front_of(line, *client, *manager, *number);
            put_pass(out, clients, front, b"begun")
        }
        LineAnswer::Ended {
            client,
            manager,
            number,
        } => {
            let front = front_of(line, *client, *manager, *number);
            put_pass(out, clients, front, b"ended")
        }
        LineAnswer::Notified(said) => {
            put_admin(out, line)?;
            put_notice(out, said)?;
            out.push(b'\n')
        }
        LineAnswer::Updated(left) => {
            put_admin(out, line)?;
            put_updated(out, left)?;
            out.push(b'\n')
        }
        LineAnswer::Acknowledged(acks) => {
            put_admin(out, line)?;
            put_acks(out, acks)?;
            out.push(b'\n')
        }
    }
}

/// Puts what a client's call got behind which call it was, with its line end.
#[inline(always)]
pub fn put_call(
    out: &mut Text,
    contexts: &SidTable,
    clients: &[ClientLine],
    front: Front,
    got: Got<'_>,
) -> Result<(), Memory>
    ensures ok { OnOk result (out.new ≡ out.old ++ ended (Answers.replied_words contexts.now clients.now front (got_answer got.entry))) }
    ensures err { OnErr result (IsFront out.old out.new) }
{
    put_front(out, clients, front)?;
    match got {
        Got::File(reply) => reply.put(out, contexts)?,
        Got::Process(reply) => reply.put(out, contexts)?,
        Got::Port(reply) => reply.put(out, contexts)?,
        Got::Aborted => put_aborted(out)?,
    }
    out.push(b'\n')
}

/// Puts what a client's pass came to behind whose pass it is, with its line end.
fn put_pass(out: &mut Text, clients: &[ClientLine], front: Front, word: &[u8]) -> Result<(), Memory>
    ensures ok { OnOk result (out.new ≡ out.old ++ ended (front_words clients.now front ++ word.now ∷ [])) }
    ensures err { OnErr result (IsFront out.old out.new) }
{
    put_front(out, clients, front)?;
    put_word(out, word)?;
    out.push(b'\n')
}

/// Which call it was.
#[inline(always)]
pub fn front_of_call(called: &Called<'_>) -> Front
    ensures { let caller = called.now.caller in result ≡ Answers.front_of called.now.line caller.client caller.manager caller.number }
{
    let Caller {
        client,
        manager,
        number,
        version: _,
    } = called.caller;
    front_of(called.line, client, manager, number)
}

#[inline(always)]
fn front_of(line: u32, client: u8, manager: Manager, number: u32) -> Front
    ensures { result ≡ Answers.front_of line client manager number }
{
    Front {
        line,
        client,
        manager,
        number,
    }
}

/// Puts what stands in front of what the administrator is told.
#[inline(always)]
fn put_admin(out: &mut Text, line: u32) -> Result<(), Memory>
    ensures ok { OnOk result (out.new ≡ out.old ++ spaced (Answers.admin_words line)) }
    ensures err { OnErr result (IsFront out.old out.new) }
{
    put_number(out, u64::from(line))?;
    put_word(out, b"admin")
}
