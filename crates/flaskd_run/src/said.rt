//! What the program says of a status on standard error.

ghost use Rattle.std.specs.Prelude.{◌≡◌, ◌++◌, IfOk, OnOk, decimal};
ghost use Rattle.flaskd_run.specs.Said;

use crate::status::Status;
use crate::texts::put_perm;
use access_vectors::Perm;
use flask_sid::{Memory, Name, Piece, Text};
use std::alloc::Global;
use text_lines::{FaultKind, put_number};

/// What the program says of a status on standard error.
pub fn status_text(alloc: Global, status: &Status) -> Result<Piece, Memory>
    ensures { IfOk result (λ text. text ≡ Said.said_of status.now) }
{
    let mut text = Text::new(alloc);
    put_status(&mut text, status)?;
    Ok(text.into_piece())
}

fn put_status(out: &mut Text, status: &Status) -> Result<(), Memory>
    ensures { OnOk result (out.new ≡ out.old ++ Said.said_of status.now) }
{
    match status {
        Status::Ok => out.extend(b"ok"),
        Status::Usage => out.extend(
            b"usage: flaskd serial | threads | generate SEED CLIENTS LINES | flow VERSION FROM TO | enter VERSION FROM TO | learn VERSION",
        ),
        Status::BadText { line, kind } => put_fault(out, *line, *kind),
        Status::Neverallow {
            version,
            line,
            s,
            t,
            perm,
        } => {
            put_place(out, *version, *line)?;
            put_broken(out, s, t, *perm)
        }
        Status::TooManyContexts => put_bound(out, b"more than ", 4095, b" contexts"),
        Status::ReadFault => out.extend(b"read fault"),
        Status::WriteFault => out.extend(b"write fault"),
        Status::TooLarge => put_bound(out, large_front(), 4_194_304, b" bytes"),
        Status::Memory => out.extend(b"memory"),
    }
}

/// Puts the faulty line of a text.
fn put_fault(out: &mut Text, line: u32, kind: FaultKind) -> Result<(), Memory>
    ensures { OnOk result (out.new ≡ out.old ++ Said.fault_text line kind) }
{
    out.extend(b"line ")?;
    put_number(out, u64::from(line))?;
    out.extend(b": ")?;
    out.extend(kind_word(kind))
}

/// Puts which version breaks which line.
fn put_place(out: &mut Text, version: u8, line: u32) -> Result<(), Memory>
    ensures { OnOk result (out.new ≡ out.old ++ Said.place_text version line) }
{
    out.extend(b"version ")?;
    put_number(out, u64::from(version))?;
    out.extend(b" line ")?;
    put_number(out, u64::from(line))
}

/// Puts what a version allows though a line forbids it.
fn put_broken(out: &mut Text, s: &Name, t: &Name, perm: Perm) -> Result<(), Memory>
    ensures { OnOk result (out.new ≡ out.old ++ Said.forbidden_text s.now t.now perm) }
{
    out.extend(broken_front())?;
    put_types(out, s, t)?;
    put_perm(out, perm)
}

/// Puts two types, with a space behind each.
fn put_types(out: &mut Text, s: &Name, t: &Name) -> Result<(), Memory>
    ensures { OnOk result (out.new ≡ out.old ++ Said.types_text s.now t.now) }
{
    out.extend(s.as_bytes())?;
    out.extend(b" ")?;
    out.extend(t.as_bytes())?;
    out.extend(b" ")
}

/// Puts a number between two texts.
fn put_bound(out: &mut Text, before: &[u8], bound: u64, behind: &[u8]) -> Result<(), Memory>
    ensures { OnOk result (out.new ≡ out.old ++ (before.now ++ decimal bound ++ behind.now)) }
{
    out.extend(before)?;
    put_number(out, bound)?;
    out.extend(behind)
}

/// The words before the types of a broken line.
#[tactic(auto, unfolding(crate::specs::Said::broken_front))]
fn broken_front() -> &'static [u8]
    ensures { result.now ≡ Said.broken_front }
{
    b": neverallow "
}

/// The words before the most bytes that an input may have.
#[tactic(auto, unfolding(crate::specs::Said::large_front))]
fn large_front() -> &'static [u8]
    ensures { result.now ≡ Said.large_front }
{
    b"input larger than "
}

/// The word for what is wrong with a line.
fn kind_word(kind: FaultKind) -> &'static [u8]
    ensures { result.now ≡ Said.kind_word kind }
{
    match kind {
        FaultKind::Syntax => b"syntax",
        FaultKind::Order => b"order",
        FaultKind::Limit => b"limit",
        FaultKind::Unknown => b"unknown",
        FaultKind::Undeclared => b"undeclared",
        FaultKind::Twice => b"twice",
        FaultKind::Ended => b"ended",
    }
}
