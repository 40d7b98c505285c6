//! The top call: which command is asked, what it reads or makes, its policy compiled, and what it writes.

ghost use Rattle.std.specs.Prelude.{◌≡◌, ◌⊎◌, true, false, Some, None, Ok, Err, IfOk};
ghost use Rattle.flask_io.specs.Streams.{HasCause};
ghost use Rattle.command_line.specs.Commands.{command_of, IsRanged};
ghost use Rattle.policy_versions.specs.Compiling.{IsCatalogueOf, sids_of};
ghost use Rattle.policy_versions.specs.Places.{kind_at};
ghost use Rattle.flaskd_run.specs.Tasks;
ghost use Rattle.flaskd_run.specs.Top;
ghost use Rattle.flaskd_run.specs.declared.status.Status.{Status};
ghost use Rattle.run_output.specs.declared.stop.RunStop.{RunStop};
ghost use Rattle.flaskd_run.specs.declared.task.Task.TheVariants as task;

use crate::path_texts::{write_found, write_words};
use crate::paths::find;
use crate::reading::{INPUT_LIMIT, ReadStop, read_all};
use crate::status::Status;
use crate::task::{Task, reads_input, task_of};
use crate::threads::{run_to_end, write_ended};
use access_vectors::Perm;
use command_line::{Command, PathAsked};
use flask_io::{Sink, Source};
use flask_sid::{Memory, Name, Word};
use flow_query::Kind;
use grant_print::write_learned;
use policy_model::{PolicyParts, PolicyText};
use policy_versions::{Catalogue, CompileFault, compile};
use run_output::RunStop;
use run_stops::Stops;
use serial_run::{serial, summary};
use session_lessons::learn;
use session_text::Session;
use std::alloc::Global;
use std::mem::forget;
use std::sync::Wait;
use std::thread::Threads;
use text_lines::TextFault;

/// Runs the program by the words of its command, the program's own name not among them: reads the source or makes a session, does
/// what the command asks with it, and writes what that prints to the sink. The memory of a session that ran to its end is left to
/// the system, which takes it back with the program's.
pub fn flaskd<R: Threads + Wait + Sync, S: Source, K: Sink, G: Stops + Sync>(
    rt: &R,
    alloc: Global,
    words: &[Word<'_>],
    source: &mut S,
    sink: &mut K,
    stops: &G,
) -> Status
    // Only where the words are no command, and then nothing else is answered but want of memory.
    ensures usage { result ≡ Status.Usage → command_of words.now ≡ None }
    ensures refused { command_of words.now ≡ None → (result ≡ Status.Usage) ⊎ (result ≡ Status.Memory) }

    // Where the command reads no input the source is not read.
    ensures unread { Top.reads_source (command_of words.now) ≡ false → source.new ≡ source.old }

    // A session that is made of numbers is never refused.
    ensures made { Top.EndsMade (command_of words.now) result }

    // Of the bytes that were taken from the source, status and text are as stated.
    ensures ran { Top.Ran result (command_of words.now) (S.left source.old) (S.left source.new) (K.written sink.old) (K.written sink.new) }

    // A fault comes only from its own cause, and none is passed over.
    ensures read_fault { HasCause (S.faults source.old) (S.faults source.new) (result ≡ Status.ReadFault) }
    ensures write_fault { HasCause (K.faults sink.old) (K.faults sink.new) (result ≡ Status.WriteFault) }
    ensures silent { Top.IsSilent result → sink.new ≡ sink.old }
{
    let Ok(asked) = command_line::command_of(alloc, words) else {
        return Status::Memory;
    };
    let Some(asked) = asked else {
        return Status::Usage;
    };
    if !reads_input(&asked) {
        return serve(rt, alloc, asked, &[], stops, sink);
    }
    let mut bytes = Vec::new(alloc);
    match read_all(source, &mut bytes) {
        Err(ReadStop::Fault) => Status::ReadFault,
        Err(ReadStop::Memory) => Status::Memory,
        Ok(()) => {
            if bytes.len() > INPUT_LIMIT {
                return Status::TooLarge;
            }
            serve(rt, alloc, asked, bytes.as_slice(), stops, sink)
        }
    }
}

/// Does what a command asks, with these bytes where it reads them: what is to be done, under a policy that compiles.
fn serve<R: Threads + Wait + Sync, K: Sink, G: Stops + Sync>(
    rt: &R,
    alloc: Global,
    asked: Command,
    bytes: &[u8],
    stops: &G,
    sink: &mut K,
) -> Status
    requires { IsRanged asked }
    ensures served { Top.Served result (Tasks.task_of asked bytes.now) (K.written sink.old) (K.written sink.new) }
    ensures command { result ≡ Status.Usage → ⊥ }
    ensures silent { Top.IsSilent result → sink.new ≡ sink.old }
    ensures cause { HasCause (K.faults sink.old) (K.faults sink.new) (result ≡ Status.WriteFault) }
{
    let task = match task_of(alloc, asked, bytes) {
        Err(TextFault::Memory) => return Status::Memory,
        Err(TextFault::Text { line, kind }) => return Status::BadText { line, kind },
        Ok(task) => task,
    };
    match compile(alloc, task.policy()) {
        Err(fault) => refused(alloc, task.policy().parts(), fault),
        Ok(catalogue) => match write(rt, alloc, task, &catalogue, stops, sink) {
            Ok(()) => Status::Ok,
            Err(RunStop::WriteFault) => Status::WriteFault,
            Err(RunStop::Memory) => Status::Memory,
        },
    }
}

/// Does a task whose policy is compiled, and writes what it prints.
fn write<R: Threads + Wait + Sync, K: Sink, G: Stops + Sync>(
    rt: &R,
    alloc: Global,
    task: Task,
    catalogue: &Catalogue,
    stops: &G,
    sink: &mut K,
) -> Result<(), RunStop>
    requires { IsCatalogueOf (Tasks.policy_in task) catalogue.now }
    ensures writes { Tasks.Writes result task (sids_of catalogue.now) (K.written sink.old) (K.written sink.new) }
    ensures cause { HasCause (K.faults sink.old) (K.faults sink.new) (result ≡ Err RunStop.WriteFault) }
{
    let contexts = catalogue.sids();
    match task {
        Task::Serial(session) => serial(rt, alloc, session.into_parts(), catalogue, contexts, sink),
        Task::Threads(session) => run_threads(rt, alloc, session, catalogue, stops, sink),
        Task::Summary(session) => summary(rt, alloc, session.into_parts(), catalogue, sink),
        Task::Path {
            policy,
            kind,
            asked,
        } => answer(alloc, &policy, catalogue, kind, &asked, sink),
        Task::Learn { session, version } => {
            learn_session(rt, alloc, session, version, catalogue, sink)
        }
    }
}

/// Runs a session whose policy is compiled with a worker for each client and one for the administrator, and writes the managers'
/// histories. Their memory is left to the system, which takes it back with the program's.
fn run_threads<R: Threads + Wait + Sync, K: Sink, G: Stops + Sync>(
    rt: &R,
    alloc: Global,
    session: Session,
    catalogue: &Catalogue,
    stops: &G,
    sink: &mut K,
) -> Result<(), RunStop>
    requires { IsCatalogueOf session.policy catalogue.now }
    ensures writes { Tasks.Writes result (task.Threads session) (sids_of catalogue.now) (K.written sink.old) (K.written sink.new) }
    ensures cause { HasCause (K.faults sink.old) (K.faults sink.new) (result ≡ Err RunStop.WriteFault) }
{
    let contexts = catalogue.sids();
    let ended = run_to_end(rt, alloc, session.into_parts(), catalogue, contexts, stops)?;
    let written = write_ended(rt, alloc, &ended, contexts, sink);
    forget(ended);
    written
}

/// Finds what is asked in a policy that is compiled, and writes what was found.
fn answer<K: Sink>(
    alloc: Global,
    policy: &PolicyText,
    catalogue: &Catalogue,
    kind: Kind,
    asked: &PathAsked,
    sink: &mut K,
) -> Result<(), RunStop>
    requires { IsCatalogueOf policy.now catalogue.now }
    ensures writes { Tasks.Writes result (task.Path policy.now kind asked.now) (sids_of catalogue.now) (K.written sink.old) (K.written sink.new) }
    ensures cause { HasCause (K.faults sink.old) (K.faults sink.new) (result ≡ Err RunStop.WriteFault) }
{
    let found = find(alloc, policy, catalogue, kind, asked)?;
    write_found(alloc, policy.parts(), &found, sink)
}

/// Learns from a session whose policy is compiled, and writes what was learned.
fn learn_session<R: Wait, K: Sink>(
    rt: &R,
    alloc: Global,
    session: Session,
    version: u64,
    catalogue: &Catalogue,
    sink: &mut K,
) -> Result<(), RunStop>
    requires { IsCatalogueOf session.policy catalogue.now }
    ensures writes { Tasks.Writes result (task.Learn session version) (sids_of catalogue.now) (K.written sink.old) (K.written sink.new) }
    ensures cause { HasCause (K.faults sink.old) (K.faults sink.new) (result ≡ Err RunStop.WriteFault) }
{
    if version >= session.parts().policy.parts().versions.len() as u64 {
        return write_words(alloc, b"noversion\n", sink);
    }
    let learnt = learn(rt, alloc, session.into_parts(), version as u8, catalogue)?;
    write_learned(alloc, learnt.policy.parts(), &learnt.learned, sink)
}

/// The status of a session whose policy is not compiled.
fn refused(alloc: Global, policy: &PolicyParts, fault: CompileFault) -> Status
    ensures { Top.IsRefused policy.now fault result }
{
    match fault {
        CompileFault::Memory => Status::Memory,
        CompileFault::TooManyContexts => Status::TooManyContexts,
        CompileFault::Neverallow {
            version,
            line,
            s,
            t,
            perm,
        } => match broken(alloc, policy, version, line, s, t, perm) {
            Ok(status) => status,
            Err(Memory) => Status::Memory,
        },
    }
}

/// The status of a policy of which a version breaks a `neverallow` line, for the types at two places.
fn broken(
    alloc: Global,
    policy: &PolicyParts,
    version: u8,
    line: u32,
    s: u8,
    t: u8,
    perm: Perm,
) -> Result<Status, Memory>
    ensures { IfOk result (λ status. status
        ≡ Top.broken_status policy.now (record { version = version; line = line; s = s; t = t; perm = perm })) }
{
    Ok(Status::Neverallow {
        version,
        line,
        s: name_at(alloc, policy, s)?,
        t: name_at(alloc, policy, t)?,
        perm,
    })
}

/// The name of the declared type at a place.
fn name_at(alloc: Global, policy: &PolicyParts, place: u8) -> Result<Name, Memory>
    ensures { IfOk result (λ name. name ≡ kind_at policy.now place) }
{
    match policy.kinds.get(usize::from(place)) {
        None => Name::of(alloc, &Word::new(&[])),
        Some(line) => line.name.copy(alloc),
    }
}
