//! Answers of a session's lines in words, as `flaskd serial` prints them.

use crate::values::{Value, put_line};
use answer_text::{Worded, put_aborted};
use change_protocol::{AckAll, NotifyAllFault, Said};
use fault_causes::{put_all, text_of};
use flask_sid::{Memory, SidTable, Text};
use manager_history::Answer;
use session_forms::Manager;
use session_managers::{Acks, Reply};
use session_print::client_name;
use session_questions::LineAnswer;
use session_text::ClientLine;
use std::alloc::Global;

/// What gives identifiers their contexts and clients their names.
#[derive(Clone, Copy)]
pub(crate) struct Named<'t> {
    pub(crate) contexts: &'t SidTable,
    pub(crate) clients: &'t [ClientLine],
}

/// Puts the answer of a line, behind the number of the line.
pub(crate) fn put_answer_words(
    alloc: Global,
    named: Named<'_>,
    answer: &LineAnswer,
    out: &mut String,
) -> Result<(), Memory> {
    match answer {
        LineAnswer::Replied {
            client,
            manager,
            number,
            got,
        } => {
            put_client(named, *client, *manager, *number, out)?;
            put_reply(alloc, named.contexts, got, out)
        }
        LineAnswer::Begun {
            client,
            manager,
            number,
        } => {
            put_client(named, *client, *manager, *number, out)?;
            put_all(out, &[" begun"])
        }
        LineAnswer::Ended {
            client,
            manager,
            number,
        } => {
            put_client(named, *client, *manager, *number, out)?;
            put_all(out, &[" ended"])
        }
        LineAnswer::Notified(said) => put_notified(said, out),
        LineAnswer::Updated(left) => put_updated(*left, out),
        LineAnswer::Acknowledged(acks) => put_acknowledged(*acks, out),
    }
}

/// Puts the name of a client, the manager and the policy number.
fn put_client(
    named: Named<'_>,
    client: u8,
    manager: Manager,
    number: u32,
    out: &mut String,
) -> Result<(), Memory> {
    let manager = match manager {
        Manager::File => " file ",
        Manager::Process => " process ",
        Manager::Port => " port ",
    };
    put_line(
        out,
        &[
            Value::Text(text_of(client_name(named.clients, client))),
            Value::Text(manager),
            Value::Number(u64::from(number)),
        ],
    )
}

/// Puts the reply of a line that is a client's call, behind a space, and nothing of another line.
pub(crate) fn put_reply_of(
    alloc: Global,
    contexts: &SidTable,
    answer: &LineAnswer,
    out: &mut String,
) -> Result<(), Memory> {
    match answer {
        LineAnswer::Replied { got, .. } => put_reply(alloc, contexts, got, out),
        _ => Ok(()),
    }
}

/// Puts a reply, or that there is none, behind a space.
fn put_reply(
    alloc: Global,
    contexts: &SidTable,
    got: &Answer<Reply>,
    out: &mut String,
) -> Result<(), Memory> {
    let mut words = Text::new(alloc);
    put_reply_words(contexts, got, &mut words)?;
    put_all(out, &[text_of(words.as_bytes())])
}

fn put_reply_words(
    contexts: &SidTable,
    got: &Answer<Reply>,
    words: &mut Text,
) -> Result<(), Memory> {
    match got {
        Answer::Aborted => put_aborted(words),
        Answer::Did(Reply::File(reply)) => reply.put(words, contexts),
        Answer::Did(Reply::Process(reply)) => reply.put(words, contexts),
        Answer::Did(Reply::Port(reply)) => reply.put(words, contexts),
    }
}

fn put_notified(said: &Result<u32, NotifyAllFault>, out: &mut String) -> Result<(), Memory> {
    let (words, number) = match said {
        Ok(number) => ("admin notified ", Some(*number)),
        Err(NotifyAllFault::Pending(number)) => ("admin pending ", Some(*number)),
        Err(NotifyAllFault::NoVersion) => ("admin noversion", None),
        Err(NotifyAllFault::Spent) => ("admin spent", None),
        Err(NotifyAllFault::Memory { .. }) => ("admin memory", None),
    };
    put_line(out, &[Value::Text(words), Value::of_number(number)])
}

fn put_updated(left: [u64; 3], out: &mut String) -> Result<(), Memory> {
    put_all(out, &["admin updated"])?;
    'managers: for count in &left {
        put_line(out, &[Value::Text(" "), Value::Number(*count)])?;
    }
    Ok(())
}

fn put_acknowledged(acks: Acks, out: &mut String) -> Result<(), Memory> {
    match acks.all {
        AckAll::Idle => put_all(out, &["admin idle"]),
        AckAll::Complete(number) => put_line(
            out,
            &[
                Value::Text("admin complete "),
                Value::Number(u64::from(number)),
            ],
        ),
        AckAll::Waiting => {
            put_all(out, &["admin waiting"])?;
            'said: for said in &acks.said {
                put_said(*said, out)?;
            }
            Ok(())
        }
    }
}

/// Puts what a manager said, behind a space.
fn put_said(said: Said, out: &mut String) -> Result<(), Memory> {
    let (words, number) = match said {
        Said::Busy(older) => (" busy:", Value::Number(older as u64)),
        Said::Behind(left) => (" behind:", Value::Number(left as u64)),
        Said::Kept => (" kept", Value::Null),
        Said::Idle => (" idle", Value::Null),
    };
    put_line(out, &[Value::Text(words), number])
}
