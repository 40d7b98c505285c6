//! The words of the command line.

ghost use Rattle.std.specs.Prelude.{◌≡◌, codes};
ghost use Rattle.std.specs.Option.{option_map};
ghost use Rattle.clap.specs.Words.{found_of, first_value};
ghost use Rattle.control_words.specs.Behind.{AreAskWords, AreWhoWords, AreDiffWords, word_at};

use clap::{Arg, ArgAction, ArgMatches, Command as Program};
use std::alloc::{AllocError, Global};

/// The words of `ask`.
#[derive(Clone, Copy)]
pub struct AskWords<'w> {
    pub version: &'w str,
    pub source: &'w str,
    pub target: &'w str,
    pub class: &'w str,
    pub permission: Option<&'w str>,
}

/// The words of `who`.
#[derive(Clone, Copy)]
pub struct WhoWords<'w> {
    pub version: &'w str,
    pub target: &'w str,
    pub class: &'w str,
    pub permission: &'w str,
}

/// The words of `diff`.
#[derive(Clone, Copy)]
pub struct DiffWords<'w> {
    pub before: &'w str,
    pub after: &'w str,
}

/// The words of `why`.
#[derive(Clone, Copy)]
pub struct WhyWords<'w> {
    pub line: &'w str,
}

/// What is asked of a text.
#[derive(Clone, Copy)]
pub enum Command<'w> {
    /// What a version decides between two types, and by which lines.
    Ask(AskWords<'w>),
    /// Which types have a permission.
    Who(WhoWords<'w>),
    /// Where two versions differ.
    Diff(DiffWords<'w>),
    /// Why a line of a session was answered as it was.
    Why(WhyWords<'w>),
    /// The lines of a session with their answers.
    Show,
    /// Whether the text is well formed.
    Check,
}

/// What the words of the command line ask.
#[derive(Clone, Copy)]
pub struct Request<'w> {
    /// The name of the file, `-` for standard input.
    pub file: &'w str,
    /// Whether the answer is wanted as JSON.
    pub json: bool,
    pub command: Command<'w>,
}

/// A word behind a command: its name, what is said of it, and whether it has to be there.
#[derive(Clone, Copy)]
struct Place {
    name: &'static str,
    help: &'static str,
    wanted: bool,
}

const FILE: Place = Place {
    name: "FILE",
    help: "a policy or a session, or - for standard input",
    wanted: true,
};

const VERSION: Place = Place {
    name: "VERSION",
    help: "counted from 0",
    wanted: true,
};

const TARGET: Place = Place {
    name: "T",
    help: "the type of the target",
    wanted: true,
};

const CLASS: Place = Place {
    name: "CLASS",
    help: "file, dir, process, port or security",
    wanted: true,
};

static ASK: [Place; 6] = [
    FILE,
    VERSION,
    Place {
        name: "S",
        help: "the type of the source",
        wanted: true,
    },
    TARGET,
    CLASS,
    Place {
        name: "PERM",
        help: "one permission of the class; without it all",
        wanted: false,
    },
];

static WHO: [Place; 5] = [
    FILE,
    VERSION,
    TARGET,
    CLASS,
    Place {
        name: "PERM",
        help: "a permission of the class",
        wanted: true,
    },
];

static DIFF: [Place; 3] = [
    FILE,
    Place {
        name: "V",
        help: "a version, counted from 0",
        wanted: true,
    },
    Place {
        name: "W",
        help: "another version",
        wanted: true,
    },
];

static WHY: [Place; 2] = [
    FILE,
    Place {
        name: "LINE",
        help: "the number of a line that runs",
        wanted: true,
    },
];

static SHOW: [Place; 1] = [FILE];

static CHECK: [Place; 1] = [Place {
    name: "FILE",
    help: "a policy or a session; without it, or where it is -, standard input",
    wanted: false,
}];

/// The program with its commands, for the parser of the words.
pub fn program<'a>(alloc: Global) -> Result<Program<'a>, AllocError> {
    let mut program = bare_program(alloc);
    program = with_command(
        alloc,
        program,
        "ask",
        "What a version decides between two types, and by which lines",
        &ASK,
    )?;
    program = with_command(
        alloc,
        program,
        "who",
        "Which types of sources have a permission",
        &WHO,
    )?;
    program = with_command(
        alloc,
        program,
        "diff",
        "Which permissions two versions give differently",
        &DIFF,
    )?;
    program = with_command(
        alloc,
        program,
        "why",
        "Why a line of a session was answered as it was",
        &WHY,
    )?;
    program = with_command(
        alloc,
        program,
        "show",
        "The lines of a session with their answers",
        &SHOW,
    )?;
    with_command(
        alloc,
        program,
        "check",
        "Whether a text is well formed, and what is wrong with it",
        &CHECK,
    )
}

// Few calls of the parser's builder stand in one function, since what it says of a program is long, and a proof of many such calls longer.

/// The program with its version and its rules, and no command yet.
fn bare_program<'a>(alloc: Global) -> Program<'a> {
    let program = named(
        alloc,
        "flaskctl",
        "Answers questions about a policy, and says what is wrong with one.",
    );
    with_wanted_command(with_help(program.version("1")))
}

fn with_help<'a>(program: Program<'a>) -> Program<'a> {
    program.after_help(
        "FILE is a policy or a session; - stands for standard input. Exit status: 0; 1 for an answer no or a finding; 2 for words; 3 for a text that is refused.",
    )
}

fn with_wanted_command<'a>(program: Program<'a>) -> Program<'a> {
    program
        .subcommand_required(true)
        .arg_required_else_help(true)
}

fn named<'a>(alloc: Global, name: &'a str, about: &'a str) -> Program<'a> {
    Program::new(alloc, name).about(about)
}

/// The program with a command that has these words behind it.
fn with_command<'a>(
    alloc: Global,
    program: Program<'a>,
    name: &'a str,
    about: &'a str,
    places: &[Place],
) -> Result<Program<'a>, AllocError> {
    program.subcommand(command_named(alloc, name, about, places)?)
}

/// A command that has these words behind it, and may answer as JSON.
fn command_named<'a>(
    alloc: Global,
    name: &'a str,
    about: &'a str,
    places: &[Place],
) -> Result<Program<'a>, AllocError> {
    let mut program = named(alloc, name, about);
    'places: for place in places {
        program = program.arg(argument(alloc, *place))?;
    }
    program.arg(json(alloc))
}

fn argument<'a>(alloc: Global, place: Place) -> Arg<'a> {
    Arg::new(alloc, place.name)
        .help(place.help)
        .required(place.wanted)
}

fn json<'a>(alloc: Global) -> Arg<'a> {
    as_flag(Arg::new(alloc, "json").help("writes the answer as one object of JSON"))
}

fn as_flag<'a>(argument: Arg<'a>) -> Arg<'a> {
    argument.long("json").action(ArgAction::SetTrue)
}

/// The request that the parsed words are.
pub fn request_of<'w>(matches: &ArgMatches<'w>) -> Option<Request<'w>> {
    let (name, matches) = matches.subcommand()?;
    let command = match name {
        "ask" => Command::Ask(ask_words(matches)),
        "who" => Command::Who(who_words(matches)),
        "diff" => Command::Diff(diff_words(matches)),
        "why" => Command::Why(why_words(matches)),
        "show" => Command::Show,
        "check" => Command::Check,
        _ => return None,
    };
    Some(Request {
        file: matches.get_str("FILE").unwrap_or("-"),
        json: matches.get_flag("json"),
        command,
    })
}

fn ask_words<'w>(matches: &ArgMatches<'w>) -> AskWords<'w>
    ensures words { AreAskWords (found_of matches.now) result }
    ensures permission { option_map (λ word. word.now) result.permission ≡ first_value (found_of matches.now) (codes "PERM") }
{
    AskWords {
        version: given(matches, "VERSION"),
        source: given(matches, "S"),
        target: given(matches, "T"),
        class: given(matches, "CLASS"),
        permission: matches.get_str("PERM"),
    }
}

fn who_words<'w>(matches: &ArgMatches<'w>) -> WhoWords<'w>
    ensures { AreWhoWords (found_of matches.now) result }
{
    WhoWords {
        version: given(matches, "VERSION"),
        target: given(matches, "T"),
        class: given(matches, "CLASS"),
        permission: given(matches, "PERM"),
    }
}

fn diff_words<'w>(matches: &ArgMatches<'w>) -> DiffWords<'w>
    ensures { AreDiffWords (found_of matches.now) result }
{
    DiffWords {
        before: given(matches, "V"),
        after: given(matches, "W"),
    }
}

fn why_words<'w>(matches: &ArgMatches<'w>) -> WhyWords<'w>
    ensures { result.line.now ≡ word_at (found_of matches.now) (codes "LINE") }
{
    WhyWords {
        line: given(matches, "LINE"),
    }
}

/// The word of an argument that is required.
fn given<'w>(matches: &ArgMatches<'w>, name: &str) -> &'w str
    ensures { result.now ≡ word_at (found_of matches.now) name.now }
{
    matches.get_str(name).unwrap_or("")
}
