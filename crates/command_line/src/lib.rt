//! The command line: what the words after the program's name ask.
//!
//! The words are parsed by `clap`, as one command with a required name and three optional arguments: `clap` says
//! which word stands where, and that no word is left over. No option is declared, and a word that begins with `-`
//! never reaches the parser, since no command has such a word.
#![tactic(auto)]

ghost use Rattle.std.specs.Prelude.{◌≡◌, true, IfOk, IfSome, IsSome};
ghost use Rattle.std.specs.List.{list_all};
ghost use Rattle.command_line.specs.Arguments.{is_argument};
ghost use Rattle.command_line.specs.Commands;

mod arguments;
mod command;
mod parser;

use arguments::arguments;
pub use command::{Command, MOST_CLIENTS, MOST_LINES, MOST_SEED, PathAsked};
use flask_sid::{Memory, Word};
use parser::parsed;
use std::alloc::Global;

/// The command that words are, the program's name not among them; `None` exactly where they are none. Each word of
/// a command is text, and begins with no `-`; its numbers are in their ranges.
#[tactic(auto, using(crate::proofs::TextLemmas::no_command, crate::proofs::RangeLemmas::found_ranged))]
pub fn command_of(alloc: Global, words: &[Word<'_>]) -> Result<Option<Command>, Memory>
    ensures exact { IfOk result (λ command. command ≡ Commands.command_of words.now) }
    ensures arguments { IfOk result (λ command. IsSome command → list_all is_argument words.now ≡ true) }
    ensures ranged { IfOk result (λ command. IfSome command Commands.IsRanged) }
{
    match arguments(alloc, words)? {
        None => Ok(None),
        Some(texts) => parsed(alloc, texts.as_slice()),
    }
}
