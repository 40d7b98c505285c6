//! Replies of the managers as the words of a line.

ghost use Rattle.std.specs.Prelude.{◌++◌, ◌≡◌, List, OnOk, OnErr};
ghost use Rattle.std.specs.List.{flat_map};
ghost use Rattle.text_print.specs.Printed.{behind};
ghost use Rattle.text_print.specs.Fronts.{IsFront};
ghost use Rattle.answer_text.specs.Replies;

use access_vectors::{Perm, class_name, perm_name};
use file_calls::FileReply;
use flask_sid::{Memory, Piece, Sid, SidTable, Text};
use port_calls::PortReply;
use process_calls::ProcessReply;
use text_print::{put_label, put_numeral, put_word};

/// A reply as the words of a line.
pub trait Worded {
    ghost use Rattle.std.specs.Prelude.{ℕ, Bool};
    ghost use Rattle.flask_sid.specs.declared.context.ContextOf.{ContextOf};

    /// Its words, where these contexts have identifiers.
    ghost words: { List (ContextOf (List ℕ)) → Self → List (List ℕ) };

    /// Whether it is a denial.
    ghost is_denial: { Self → Bool };

    /// Whether it is a denial.
    fn is_denial(&self) -> bool
        ensures { result ≡ is_denial self.now };

    /// Puts its words, each behind a space.
    fn put(&self, out: &mut Text, contexts: &SidTable) -> Result<(), Memory>
        ensures ok { OnOk result (out.new ≡ out.old ++ flat_map behind (words contexts.now self.now)) }
        ensures err { OnErr result (IsFront out.old out.new) };
}

impl Worded for FileReply {
    ghost words = { Replies.file_words };

    ghost is_denial = { Replies.is_file_denial };

    fn is_denial(&self) -> bool {
        matches!(self, FileReply::Denied { .. })
    }

    fn put(&self, out: &mut Text, contexts: &SidTable) -> Result<(), Memory> {
        match self {
            FileReply::Done => put_word(out, b"done"),
            FileReply::Bytes(bytes) => put_data(out, bytes.as_bytes()),
            FileReply::Names(names) => put_names(out, names.as_slice()),
            FileReply::Stat { sid, number } => put_stat(out, contexts, *sid, *number),
            FileReply::Denied { perm, policy: _ } => put_denial(out, *perm),
            FileReply::NotFound => put_word(out, b"notfound"),
            FileReply::NotDir => put_word(out, b"notdir"),
            FileReply::IsDir => put_word(out, b"isdir"),
            FileReply::Exists => put_word(out, b"exists"),
            FileReply::NotEmpty => put_word(out, b"notempty"),
            FileReply::BadSlot => put_word(out, b"badslot"),
            FileReply::SlotUsed => put_word(out, b"slotused"),
            FileReply::BadMode => put_word(out, b"badmode"),
            FileReply::TooBig => put_word(out, b"toobig"),
            FileReply::TooMany => put_word(out, b"toomany"),
        }
    }
}

impl Worded for ProcessReply {
    ghost words = { Replies.process_words };

    ghost is_denial = { Replies.is_process_denial };

    fn is_denial(&self) -> bool {
        matches!(self, ProcessReply::Denied { .. })
    }

    fn put(&self, out: &mut Text, contexts: &SidTable) -> Result<(), Memory> {
        match self {
            ProcessReply::Done => put_word(out, b"done"),
            ProcessReply::Num(number) => put_told(out, *number),
            ProcessReply::Stat { sid, number } => put_stat(out, contexts, *sid, u64::from(*number)),
            ProcessReply::Denied { perm, policy: _ } => put_denial(out, *perm),
            ProcessReply::NoProcess => put_word(out, b"noprocess"),
            ProcessReply::Exists => put_word(out, b"exists"),
            ProcessReply::Ended => put_word(out, b"ended"),
            ProcessReply::Running => put_word(out, b"running"),
            ProcessReply::NotChild => put_word(out, b"notchild"),
            ProcessReply::BadSlot => put_word(out, b"badslot"),
            ProcessReply::SlotUsed => put_word(out, b"slotused"),
            ProcessReply::TooMany => put_word(out, b"toomany"),
        }
    }
}

impl Worded for PortReply {
    ghost words = { Replies.port_words };

    ghost is_denial = { Replies.is_port_denial };

    fn is_denial(&self) -> bool {
        matches!(self, PortReply::Denied { .. })
    }

    fn put(&self, out: &mut Text, contexts: &SidTable) -> Result<(), Memory> {
        match self {
            PortReply::Done => put_word(out, b"done"),
            PortReply::Bytes(bytes) => put_data(out, bytes.as_bytes()),
            PortReply::Stat { sid, number } => put_stat(out, contexts, *sid, u64::from(*number)),
            PortReply::Denied { perm, policy: _ } => put_denial(out, *perm),
            PortReply::Taken => put_word(out, b"taken"),
            PortReply::NoPort => put_word(out, b"noport"),
            PortReply::BadSlot => put_word(out, b"badslot"),
            PortReply::SlotUsed => put_word(out, b"slotused"),
            PortReply::BadMode => put_word(out, b"badmode"),
            PortReply::Full => put_word(out, b"full"),
            PortReply::Empty => put_word(out, b"empty"),
            PortReply::TooBig => put_word(out, b"toobig"),
        }
    }
}

/// Puts bytes that were read: how many, and where there are any, these.
fn put_data(out: &mut Text, bytes: &[u8]) -> Result<(), Memory>
    ensures ok { OnOk result (out.new ≡ out.old ++ flat_map behind (Replies.data_words bytes.now)) }
    ensures err { OnErr result (IsFront out.old out.new) }
{
    put_word(out, b"data")?;
    put_numeral(out, bytes.len() as u64)?;
    match bytes {
        [] => Ok(()),
        [_first, ..] => put_word(out, bytes),
    }
}

/// Puts names that were listed: how many, and these.
fn put_names(out: &mut Text, names: &[Piece]) -> Result<(), Memory>
    ensures ok { OnOk result (out.new ≡ out.old ++ flat_map behind (Replies.names_words names.now)) }
    ensures err { OnErr result (IsFront out.old out.new) }
{
    put_word(out, b"names")?;
    put_numeral(out, names.len() as u64)?;
    put_each(out, names)
}

fn put_each(out: &mut Text, names: &[Piece]) -> Result<(), Memory>
    ensures ok { OnOk result (out.new ≡ out.old ++ flat_map behind names.now) }
    ensures err { OnErr result (IsFront out.old out.new) }
{
    'names: for name in names {
        put_word(out, name.as_bytes())?;
    }
    Ok(())
}

/// Puts the context of a label, and a number.
fn put_stat(out: &mut Text, contexts: &SidTable, sid: Sid, number: u64) -> Result<(), Memory>
    ensures ok { OnOk result (out.new ≡ out.old ++ flat_map behind (Replies.stat_words contexts.now sid number)) }
    ensures err { OnErr result (IsFront out.old out.new) }
{
    put_word(out, b"stat")?;
    put_label(out, contexts, sid)?;
    put_numeral(out, number)
}

fn put_told(out: &mut Text, number: u32) -> Result<(), Memory>
    ensures ok { OnOk result (out.new ≡ out.old ++ flat_map behind (Replies.told_words number)) }
    ensures err { OnErr result (IsFront out.old out.new) }
{
    put_word(out, b"num")?;
    put_numeral(out, u64::from(number))
}

fn put_denial(out: &mut Text, perm: Perm) -> Result<(), Memory>
    ensures ok { OnOk result (out.new ≡ out.old ++ flat_map behind (Replies.denial_words perm)) }
    ensures err { OnErr result (IsFront out.old out.new) }
{
    put_word(out, b"denied")?;
    put_word(out, class_name(perm.class()).as_bytes())?;
    put_word(out, perm_name(perm).as_bytes())
}
