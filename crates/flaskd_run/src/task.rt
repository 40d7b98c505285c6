//! What a command is to do, with what was read or made for it.

ghost use Rattle.std.specs.Prelude.{◌≡◌};
ghost use Rattle.command_line.specs.Commands.{IsRanged, IsWithin};
ghost use Rattle.session_generator.specs.Generated.{generated as generated_of};
ghost use Rattle.std.specs.Prelude.{Ok};
ghost use Rattle.text_lines.specs.Refusals.{GivesText};
ghost use Rattle.flaskd_run.specs.Tasks;
ghost use Rattle.flaskd_run.specs.declared.task.Task.TheVariants as task;

use command_line::{Command, PathAsked};
use flask_sid::Memory;
use flow_query::Kind;
use policy_model::PolicyText;
use session_generator::generated;
use session_text::Session;
use std::alloc::Global;
use text_lines::TextFault;

/// What is to be done.
#[derive(Debug, Drop)]
pub enum Task {
    /// Runs a session, and writes all that its lines say.
    Serial(Session),
    /// Runs a session with a worker for each client and one for the administrator, and writes the managers' histories.
    Threads(Session),
    /// Runs a session, and writes its summary alone.
    Summary(Session),
    /// Finds the shortest path between two types of a policy.
    Path {
        policy: PolicyText,
        kind: Kind,
        asked: PathAsked,
    },
    /// Runs a session, and finds what its denials under a version ask for.
    Learn {
        session: Session,
        version: u64,
    },
}

impl Task {
    /// The policy under which it is done.
    pub fn policy(&self) -> &PolicyText
        ensures { result.now ≡ Tasks.policy_in self.now }
    {
        match self {
            Task::Serial(session) => &session.parts().policy,
            Task::Threads(session) => &session.parts().policy,
            Task::Summary(session) => &session.parts().policy,
            Task::Path { policy, .. } => policy,
            Task::Learn { session, .. } => &session.parts().policy,
        }
    }
}

/// Whether a command reads its input from the source.
pub fn reads_input(asked: &Command) -> bool
    ensures { result ≡ Tasks.reads_input asked.now }
{
    !matches!(asked, Command::Generate { .. })
}

/// What a command is to do, with the bytes of the source where it reads them.
pub fn task_of(alloc: Global, asked: Command, bytes: &[u8]) -> Result<Task, TextFault>
    requires { IsRanged asked }
    ensures { GivesText result (Tasks.task_of asked bytes.now) }
{
    match asked {
        Command::Serial => match session_text::read(alloc, bytes) {
            Ok(session) => Ok(Task::Serial(session)),
            Err(fault) => Err(fault),
        },
        Command::Threads => match session_text::read(alloc, bytes) {
            Ok(session) => Ok(Task::Threads(session)),
            Err(fault) => Err(fault),
        },
        Command::Generate {
            seed,
            clients,
            lines,
        } => made(alloc, seed, clients, lines),
        Command::Flow(asked) => path_task(alloc, bytes, Kind::Flow, asked),
        Command::Enter(asked) => path_task(alloc, bytes, Kind::Enter, asked),
        Command::Learn { version } => match session_text::read(alloc, bytes) {
            Ok(session) => Ok(Task::Learn { session, version }),
            Err(fault) => Err(fault),
        },
    }
}

/// The run of a session that is made of three numbers.
fn made(alloc: Global, seed: u32, clients: u8, lines: u32) -> Result<Task, TextFault>
    requires { IsWithin seed clients lines }
    ensures { GivesText result (Ok (task.Summary (generated_of seed clients lines))) }
{
    match generated(alloc, seed, clients, lines) {
        Ok(session) => Ok(Task::Summary(session)),
        Err(Memory) => Err(TextFault::Memory),
    }
}

/// The search for a path in the policy that the bytes are.
fn path_task(alloc: Global, bytes: &[u8], kind: Kind, asked: PathAsked) -> Result<Task, TextFault>
    ensures { GivesText result (Tasks.path_task kind asked bytes.now) }
{
    match policy_text::read(alloc, bytes) {
        Ok(policy) => Ok(Task::Path {
            policy,
            kind,
            asked,
        }),
        Err(fault) => Err(fault),
    }
}
