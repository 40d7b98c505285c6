//! Commands, and the ranges of their numbers.

ghost use Rattle.std.specs.Prelude.{◌≡◌, ◌≤◌, IfOk, IfSome};
ghost use Rattle.command_line.specs.Arguments.{told};
ghost use Rattle.command_line.specs.Commands;

use flask_sid::{Memory, Name, Word};
use std::alloc::Global;
use text_lines::numeral;

/// The greatest seed of a session that is made.
pub const MOST_SEED: u32 = 2_147_483_647;

/// The most clients that a session that is made may have. One is the least.
pub const MOST_CLIENTS: u8 = 62;

/// The most run lines that a session that is made may have. One is the least.
pub const MOST_LINES: u32 = 90_000;

/// What a path is asked of: a version of a policy, by its number, and two types, by their names.
#[derive(Debug, Drop)]
pub struct PathAsked {
    pub version: u64,
    pub from: Name,
    pub to: Name,
}

/// What the words of the command line ask.
#[derive(Debug, Drop)]
pub enum Command {
    /// Runs the session of the source, one line after the other, and writes what it prints.
    Serial,
    /// Runs the session of the source with a worker for each client and one for the administrator, and writes the managers'
    /// histories.
    Threads,
    /// Makes a session from a seed, with so many clients and run lines, each within its limits, and writes its summary.
    Generate { seed: u32, clients: u8, lines: u32 },
    /// Finds the shortest way of information between two types of the policy of the source.
    Flow(PathAsked),
    /// Finds the shortest way by which a domain of the policy of the source is entered from another.
    Enter(PathAsked),
    /// Runs the session of the source, and finds the `allow` lines that its denials under a version ask for.
    Learn { version: u64 },
}

/// The command whose words stand in these places.
#[tactic(auto, unfolding(crate::specs::Commands::command_by))]
pub(crate) fn command_by(
    alloc: Global,
    name: Option<&str>,
    one: Option<&str>,
    two: Option<&str>,
    three: Option<&str>,
) -> Result<Option<Command>, Memory>
    ensures { IfOk result (λ command. command ≡ Commands.command_by (told name.entry) (told one.entry) (told two.entry) (told three.entry)) }
{
    let Some(name) = name else {
        return Ok(None);
    };
    match (one, two, three) {
        (None, None, None) => Ok(one_form(name)),
        (Some(one), None, None) => Ok(two_form(name, one)),
        (Some(one), Some(two), Some(three)) => four_form(alloc, name, one, two, three),
        _ => Ok(None),
    }
}

// A command of one word, by that word.
#[tactic(auto, unfolding(crate::specs::Commands::one_form))]
fn one_form(name: &str) -> Option<Command>
    ensures { result ≡ Commands.one_form name.now }
{
    if name == "serial" {
        Some(Command::Serial)
    } else if name == "threads" {
        Some(Command::Threads)
    } else {
        None
    }
}

// A command of two words: `learn VERSION`.
#[tactic(auto, unfolding(crate::specs::Commands::two_form))]
fn two_form(name: &str, one: &str) -> Option<Command>
    ensures { result ≡ Commands.two_form name.now one.now }
{
    if name != "learn" {
        return None;
    }
    let version = numeral(&Word::new(one.as_bytes()))?;
    Some(Command::Learn { version })
}

// A command of four words, by the first.
#[tactic(auto, unfolding(crate::specs::Commands::four_form))]
fn four_form(
    alloc: Global,
    name: &str,
    one: &str,
    two: &str,
    three: &str,
) -> Result<Option<Command>, Memory>
    ensures { IfOk result (λ command. command ≡ Commands.four_form name.now one.now two.now three.now) }
{
    if name == "generate" {
        Ok(generate_form(one, two, three))
    } else if name == "flow" {
        Ok(path_form(alloc, one, two, three)?.map(Command::Flow))
    } else if name == "enter" {
        Ok(path_form(alloc, one, two, three)?.map(Command::Enter))
    } else {
        Ok(None)
    }
}

// `SEED CLIENTS LINES`.
#[tactic(auto, unfolding(crate::specs::Commands::generate_form))]
fn generate_form(seed: &str, clients: &str, lines: &str) -> Option<Command>
    ensures { result ≡ Commands.generate_form seed.now clients.now lines.now }
{
    let seed = number_within(seed, 0, u64::from(MOST_SEED))?;
    let clients = number_within(clients, 1, u64::from(MOST_CLIENTS))?;
    let lines = number_within(lines, 1, u64::from(MOST_LINES))?;
    Some(Command::Generate {
        seed: seed as u32,
        clients: clients as u8,
        lines: lines as u32,
    })
}

// `VERSION FROM TO`.
#[tactic(auto, unfolding(crate::specs::Commands::path_form))]
fn path_form(
    alloc: Global,
    version: &str,
    from: &str,
    to: &str,
) -> Result<Option<PathAsked>, Memory>
    ensures { IfOk result (λ asked. asked ≡ Commands.path_form version.now from.now to.now) }
{
    let Some(version) = numeral(&Word::new(version.as_bytes())) else {
        return Ok(None);
    };
    let from = Word::new(from.as_bytes());
    let to = Word::new(to.as_bytes());
    if !from.is_name() || !to.is_name() {
        return Ok(None);
    }
    Ok(Some(PathAsked {
        version,
        from: Name::of(alloc, &from)?,
        to: Name::of(alloc, &to)?,
    }))
}

// The number from `least` to `most` that the text is a numeral of.
#[tactic(auto, unfolding(crate::specs::Commands::number_within))]
fn number_within(text: &str, least: u64, most: u64) -> Option<u64>
    ensures said { result ≡ Commands.number_within least most text.now }
    ensures most { IfSome result (λ number. number ≤ most) }
{
    let number = numeral(&Word::new(text.as_bytes()))?;
    if number < least || number > most {
        return None;
    }
    Some(number)
}
