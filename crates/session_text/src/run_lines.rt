//! What a line that runs asks, by its words and by the lines above it.

ghost use Rattle.std.specs.Prelude.{◌≡◌};
ghost use Rattle.text_lines.specs.Refusals.{Gives};
ghost use Rattle.session_text.specs.Grammar;

use crate::calls::{client_of, file_call, port_call, process_call};
use crate::running::Running;
use crate::session::Run;
use flask_sid::Word;
use session_forms::{
    Manager, both, both_made, is_end, judged, manager_of, one_word, value_of, version_of,
};
use std::alloc::Global;
use text_lines::{FaultKind, Refusal, Words};

/// What a line that runs asks, by its first word: a line of the administrator, or what a client of that name asks of a
/// manager, which is a pass, to give it back, or a call.
#[tactic(auto, unfolding(crate::specs::Grammar::run_of, crate::specs::Grammar::asked_run, crate::specs::Grammar::call_run))]
pub(crate) fn run_of<'a>(
    alloc: Global,
    running: &Running<'a>,
    first: &Word<'a>,
    mut words: Words<'a>,
) -> Result<Run, Refusal>
    ensures { Gives result (Grammar.run_of running.now first.now words.entry) }
{
    if first.is(b"admin") {
        return judged(admin_run(words));
    }
    let (manager, call) = judged(asked_of(first, &mut words))?;
    if call.is(b"begin") {
        return judged(begin_run(running, first, manager, words));
    }
    if call.is(b"end") {
        return judged(end_run(running, first, manager, words));
    }
    let client = client_of(running, first);
    match manager {
        Manager::File => {
            let (client, call) = both_made(client, file_call(alloc, running, &call, words))?;
            Ok(Run::File { client, call })
        }
        Manager::Process => {
            let (client, call) = judged(both(client, process_call(running, &call, words)))?;
            Ok(Run::Process { client, call })
        }
        Manager::Port => {
            let (client, call) = both_made(client, port_call(alloc, &call, words))?;
            Ok(Run::Port { client, call })
        }
    }
}

/// The manager that a client of that name asks, and the word of what it asks. `Syntax` where the name has not the form of
/// one, and where no name of a manager and no word stand behind it.
#[tactic(auto, unfolding(crate::specs::Grammar::client_run, crate::specs::Grammar::asked_run))]
#[inline(always)]
fn asked_of<'a>(name: &Word<'a>, words: &mut Words<'a>) -> Result<(Manager, Word<'a>), FaultKind>
    ensures { Grammar.IsAskedBy result name.now words.old words.new }
{
    if !name.is_name_form() {
        return Err(FaultKind::Syntax);
    }
    let Some(word) = words.next() else {
        return Err(FaultKind::Syntax);
    };
    let Some(manager) = manager_of(&word) else {
        return Err(FaultKind::Syntax);
    };
    let Some(call) = words.next() else {
        return Err(FaultKind::Syntax);
    };
    Ok((manager, call))
}

/// A line of the administrator.
#[tactic(auto, unfolding(crate::specs::Grammar::admin_run))]
fn admin_run(mut words: Words<'_>) -> Result<Run, FaultKind>
    ensures { result ≡ Grammar.admin_run words.entry }
{
    let Some(what) = words.next() else {
        return Err(FaultKind::Syntax);
    };
    if what.is(b"notify") {
        let ver = version_of(&one_word(words)?)?;
        return Ok(Run::Notify { ver });
    }
    if what.is(b"update") {
        let k = value_of(&one_word(words)?)?;
        return Ok(Run::Update { k });
    }
    if what.is(b"ack") {
        return alone(words, Run::Ack);
    }
    if what.is(b"force") {
        return alone(words, Run::Force);
    }
    Err(FaultKind::Syntax)
}

/// What stands alone in its line, with no word left.
fn alone(words: Words<'_>, run: Run) -> Result<Run, FaultKind>
    ensures { result ≡ Grammar.alone words.entry run }
{
    if is_end(words) {
        Ok(run)
    } else {
        Err(FaultKind::Syntax)
    }
}

/// A client takes a pass of a manager. `Order` where it holds one.
#[tactic(auto, unfolding(crate::specs::Grammar::begin_run))]
fn begin_run<'a>(
    running: &Running<'a>,
    name: &Word<'a>,
    manager: Manager,
    words: Words<'a>,
) -> Result<Run, FaultKind>
    ensures { result ≡ Grammar.begin_run running.now name.now manager words.entry }
{
    if !is_end(words) {
        return Err(FaultKind::Syntax);
    }
    if running.holds(manager, name) {
        return Err(FaultKind::Order);
    }
    let client = client_of(running, name)?;
    Ok(Run::Begin { client, manager })
}

/// A client gives the pass of a manager back. `Order` where it holds none.
#[tactic(auto, unfolding(crate::specs::Grammar::end_run))]
fn end_run<'a>(
    running: &Running<'a>,
    name: &Word<'a>,
    manager: Manager,
    words: Words<'a>,
) -> Result<Run, FaultKind>
    ensures { result ≡ Grammar.end_run running.now name.now manager words.entry }
{
    if !is_end(words) {
        return Err(FaultKind::Syntax);
    }
    if !running.holds(manager, name) {
        return Err(FaultKind::Order);
    }
    let client = client_of(running, name)?;
    Ok(Run::End { client, manager })
}
