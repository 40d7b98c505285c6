//! The parser of the words, and the command that it finds.

ghost use Rattle.std.specs.Prelude.{◌≡◌, ◌≢◌, true, None, codes, IfOk};
ghost use Rattle.std.specs.List.{list_all};
ghost use Rattle.clap.specs.Words.{FailsBy, app_of, fault_of, first_value, found_of, kind_of, matches_of, rows_of};
ghost use Rattle.command_line.specs.Arguments.{is_argument, texts};
ghost use Rattle.command_line.specs.Commands;
ghost use Rattle.command_line.specs.Parser.{program};

use crate::command::{Command, command_by};
use clap::error::ErrorKind;
use clap::{Arg, ArgMatches, Error};
use flask_sid::Memory;
use std::alloc::{AllocError, Global};

/// The command that arguments are, or `None` exactly where they are none.
pub(crate) fn parsed<'a>(alloc: Global, arguments: &'a [&'a str]) -> Result<Option<Command>, Memory>
    requires { list_all is_argument (texts arguments.now) ≡ true }
    ensures { IfOk result (λ command. command ≡ Commands.command_of (texts arguments.entry.now)) }
{
    match matches(alloc, arguments) {
        Ok(matches) => command_in(alloc, &matches),
        Err(error) => without_matches(&error),
    }
}

/// The words that the parser takes: a name and up to three more, in this order. Nothing is an option.
fn program<'a>(alloc: Global) -> Result<clap::Command<'a>, AllocError>
    ensures { IfOk result (λ made. app_of made ≡ program) }
{
    clap::Command::new(alloc, "flaskd")
        .no_binary_name(true)
        .disable_help_flag(true)
        .arg(Arg::new(alloc, "command").required(true))?
        .arg(Arg::new(alloc, "one"))?
        .arg(Arg::new(alloc, "two"))?
        .arg(Arg::new(alloc, "three"))
}

fn matches<'a>(alloc: Global, arguments: &'a [&'a str]) -> Result<ArgMatches<'a>, Error>
    ensures faults { FailsBy (fault_of program (texts arguments.entry.now)) result }
    ensures rows { IfOk result (λ m. rows_of (found_of m) ≡ matches_of program (texts arguments.entry.now)) }
{
    let program = program(alloc)?;
    program.try_get_matches_from(arguments)
}

// Words that the parser refuses are no command.
fn without_matches(error: &Error) -> Result<Option<Command>, Memory>
    ensures { IfOk result (λ command. (command ≡ None) × (kind_of error.now ≢ ErrorKind.OutOfMemory)) }
{
    if error.kind() == ErrorKind::OutOfMemory {
        return Err(Memory);
    }
    Ok(None)
}

fn command_in(alloc: Global, matches: &ArgMatches<'_>) -> Result<Option<Command>, Memory>
    ensures { IfOk result (λ command. command ≡ Commands.command_by (first_value (found_of matches.now) (codes "command")) (first_value (found_of matches.now) (codes "one"))
        (first_value (found_of matches.now) (codes "two")) (first_value (found_of matches.now) (codes "three"))) }
{
    command_by(
        alloc,
        matches.get_str("command"),
        matches.get_str("one"),
        matches.get_str("two"),
        matches.get_str("three"),
    )
}
