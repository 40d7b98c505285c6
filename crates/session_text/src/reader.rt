//! Reading a session text to its end: its policy, its session lines, and the lines that run.

ghost use Rattle.std.specs.Prelude.{◌≡◌, ◌≤◌, false, IsTrue, IfOk, OnOk};
ghost use Rattle.text_lines.specs.Refusals.{GivesText};
ghost use Rattle.text_lines.specs.declared.fault.TextFault.TheVariants as text_fault;
ghost use Rattle.policy_text.specs.Reading.{IsRefusedAt, begun as policy_begun};
ghost use Rattle.session_forms.specs.ArgumentForms.{IsSetupForm};
ghost use Rattle.session_text.specs.Grammar;
ghost use Rattle.session_text.specs.Progress.{AreAbove, Becomes};
ghost use Rattle.session_text.specs.Readers as part;
ghost use Rattle.session_text.specs.Reading;

use crate::run_lines::run_of;
use crate::running::Running;
use crate::session::Session;
use crate::setup::Setup;
use crate::setup_lines::setup_read;
use policy_text::PolicyReader;
use session_forms::{SetupForm, is_end, setup_form};
use std::alloc::Global;
use text_lines::{FaultKind, Line, Lines, Refusal, TextFault, Words, line_words};

/// Reads a session text. Ok exactly where it is one, and else its first faulty line and what is wrong with it.
#[tactic(auto, unfolding(crate::specs::Reading::session_of))]
pub fn read(alloc: Global, bytes: &[u8]) -> Result<Session, TextFault>
    ensures { GivesText result (Reading.session_of bytes.now) }
{
    let mut lines = Lines::of(bytes);
    let (first, begun) = read_policy(alloc, &mut lines)?;
    let (mut number, setup) = read_setup(alloc, first, begun, &mut lines)?;
    let mut running = match Running::begun(alloc, setup) {
        Ok(running) => running,
        Err(_memory) => return Err(TextFault::Memory),
    };
    'lines: while let Some(line) = lines.next() {
        match run_line_read(alloc, number, &line, &mut running) {
            Ok(()) => number += 1,
            Err(refusal) => return Err(refused_at(number, refusal)),
        }
    }
    Ok(running.finish())
}

/// Reads the lines of the policy and the session line, above which it ends. Answers the number of the next line and what is
/// above it.
fn read_policy<'a>(alloc: Global, lines: &mut Lines<'a>) -> Result<(u32, Setup<'a>), TextFault>
    ensures said { Reading.IsReadTo Reading.in_setup result lines.new (Reading.read_lines (part.Policy policy_begun) lines.old) }
    ensures counted { IfOk result (λ begun. begun.0 ≤ 100001) }
{
    let mut policy = PolicyReader::new();
    'lines: while let Some(line) = lines.next() {
        if is_session_line(&line) {
            return session_line_read(alloc, policy, &line);
        }
        match policy.read_line(alloc, &line) {
            Ok(()) => {}
            Err(fault) => return Err(fault),
        }
    }
    Err(fault_at(policy.number(), FaultKind::Ended))
}

/// The session line, and the number of the next one.
#[tactic(auto, unfolding(crate::specs::Reading::session_line_read))]
fn session_line_read<'a>(
    alloc: Global,
    policy: PolicyReader<'a>,
    line: &Line<'a>,
) -> Result<(u32, Setup<'a>), TextFault>
    ensures said { Reading.IsBegun result (Reading.session_line_read policy.entry line.now) }
    ensures counted { IfOk result (λ begun. begun.0 ≤ 100001) }
{
    let number = policy.number();
    let (policy, contexts) = match policy.finish() {
        Ok(ended) => ended,
        Err(fault) => return Err(fault),
    };
    let words = match line_words(number, line) {
        Ok(words) => words,
        Err(kind) => return Err(fault_at(number, kind)),
    };
    if !is_alone(words) {
        return Err(fault_at(number, FaultKind::Syntax));
    }
    Ok((number + 1, Setup::begun(alloc, policy, contexts)))
}

/// Reads the session lines from line `first` down to `run`. Answers as `read_policy`.
fn read_setup<'a>(
    alloc: Global,
    first: u32,
    begun: Setup<'a>,
    lines: &mut Lines<'a>,
) -> Result<(u32, Setup<'a>), TextFault>
    requires { first ≤ 100001 }
    ensures said { Reading.IsReadTo Reading.in_run result lines.new (Reading.read_lines (Reading.in_setup first begun.entry) lines.old) }
    ensures counted { IfOk result (λ ended. ended.0 ≤ 100001) }
{
    let mut number = first;
    let mut setup = begun;
    'lines: while let Some(line) = lines.next() {
        match numbered_line_read(alloc, number, &line, &mut setup) {
            Ok(true) => return Ok((number + 1, setup)),
            Ok(false) => number += 1,
            Err(refusal) => return Err(refused_at(number, refusal)),
        }
    }
    Err(fault_at(number, FaultKind::Ended))
}

fn fault_at(line: u32, kind: FaultKind) -> TextFault
    ensures { result ≡ text_fault.Text line kind }
{
    TextFault::Text { line, kind }
}

/// The fault of a line that was refused.
fn refused_at(line: u32, refusal: Refusal) -> TextFault
    ensures { IsRefusedAt result line refusal }
{
    match refusal {
        Refusal::Fault(kind) => fault_at(line, kind),
        Refusal::Memory => TextFault::Memory,
    }
}

#[tactic(auto, unfolding(crate::specs::Reading::is_session_line))]
fn is_session_line(line: &Line<'_>) -> bool
    ensures { result ≡ Reading.is_session_line line.now }
{
    if begins_otherwise(line.as_bytes()) {
        return false;
    }
    let mut words = Words::new(line.as_bytes());
    match words.next() {
        None => false,
        Some(first) => first.is(b"session"),
    }
}

// Whether the first byte of a line tells that it is no session line. So the first word of a rule line is not cut for that.
fn begins_otherwise(bytes: &[u8]) -> bool
    ensures { IsTrue result → Reading.is_session_line bytes.now ≡ false }
{
    match bytes {
        [first, ..] => first.is_ascii_lowercase() && *first != b's',
        [] => false,
    }
}

#[tactic(auto, unfolding(crate::specs::Reading::is_alone))]
fn is_alone(mut words: Words<'_>) -> bool
    ensures { result ≡ Reading.is_alone words.entry }
{
    match words.next() {
        None => false,
        Some(_word) => is_end(words),
    }
}

/// What a session line says, if anything. `true` tells that it was the last one, `run`.
#[tactic(auto, unfolding(crate::specs::Reading::setup_words_read))]
fn numbered_line_read<'a>(
    alloc: Global,
    number: u32,
    line: &Line<'a>,
    setup: &mut Setup<'a>,
) -> Result<bool, Refusal>
    ensures said { Reading.Leads result number setup.new (Reading.numbered_line_read number line.now setup.old) }
    ensures counted { OnOk result (number ≤ 100000) }
{
    let mut words = match line_words(number, line) {
        Ok(words) => words,
        Err(kind) => return Err(Refusal::Fault(kind)),
    };
    let Some(first) = words.next() else {
        return Ok(false);
    };
    match setup_form(&first, words) {
        None => Err(Refusal::Fault(FaultKind::Syntax)),
        Some(form) => setup_form_read(alloc, number, form, setup),
    }
}

/// What a session line of this form says. `true` tells that it is `run`.
fn setup_form_read<'a>(
    alloc: Global,
    number: u32,
    form: SetupForm<'a>,
    setup: &mut Setup<'a>,
) -> Result<bool, Refusal>
    requires { IsSetupForm form }
    ensures { Reading.Leads result number setup.new (Reading.setup_form_read number form.entry setup.old) }
{
    let is_last = is_run(&form);
    match setup_read(alloc, form, setup) {
        Ok(()) => Ok(is_last),
        Err(refusal) => Err(refusal),
    }
}

fn is_run(form: &SetupForm<'_>) -> bool
    ensures { result ≡ Reading.is_run form.now }
{
    match form {
        SetupForm::Run => true,
        _ => false,
    }
}

/// What a line that runs says, if anything.
#[tactic(auto, unfolding(crate::specs::Grammar::run_line_read, crate::specs::Grammar::run_words_read))]
#[inline(never)]
fn run_line_read<'a>(
    alloc: Global,
    number: u32,
    line: &Line<'a>,
    running: &mut Running<'a>,
) -> Result<(), Refusal>
    requires { AreAbove number running.old.lines }
    ensures said { Becomes result running.new (Grammar.run_line_read number line.now running.old) }
    ensures counted { OnOk result (number ≤ 100000) }
{
    let mut words = match line_words(number, line) {
        Ok(words) => words,
        Err(kind) => return Err(Refusal::Fault(kind)),
    };
    let Some(first) = words.next() else {
        return Ok(());
    };
    let run = run_of(alloc, running, &first, words)?;
    Ok(running.add_line(number, run)?)
}
