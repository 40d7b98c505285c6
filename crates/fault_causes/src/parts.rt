//! The parts of forms: which words have the form of a part, which of those are within its limits, and how it is called.

use flask_sid::{Word, context_form};
use session_forms::path_form;
use text_lines::numeral;

/// What words a part takes.
#[derive(Clone, Copy)]
pub(crate) enum Shape {
    /// A name that the line declares or speaks of.
    Name,
    /// The name of a declared type.
    Kind,
    /// A type, an attribute or `*`.
    Source,
    /// The same, or `self`.
    Target,
    Class,
    Permission,
    Client,
    Context,
    Path,
    Data,
    /// A number from the first to the second.
    Number(u64, u64),
    /// One of the words between the bars of the part.
    Choice,
}

/// A part of forms.
#[derive(Clone, Copy)]
pub(crate) struct Part {
    name: &'static str,
    pub(crate) shape: Shape,
    /// What words it takes, as a reader of the line is told.
    pub(crate) what: &'static str,
}

static PARTS: [Part; 26] = [
    Part {
        name: "NAME",
        shape: Shape::Name,
        what: "a name: 1 to 32 lower-case letters, digits and _, a letter first",
    },
    Part {
        name: "TYPE",
        shape: Shape::Kind,
        what: "the name of a type",
    },
    Part {
        name: "S",
        shape: Shape::Source,
        what: "a source: a type, an attribute or *",
    },
    Part {
        name: "T",
        shape: Shape::Target,
        what: "a target: a type, an attribute, * or self",
    },
    Part {
        name: "CLASS",
        shape: Shape::Class,
        what: "a class: file, dir, process, port or security",
    },
    Part {
        name: "PERM",
        shape: Shape::Permission,
        what: "a permission of the class, or * alone",
    },
    Part {
        name: "CLIENT",
        shape: Shape::Client,
        what: "the name of a client",
    },
    Part {
        name: "RECEIVER",
        shape: Shape::Client,
        what: "the name of a client",
    },
    Part {
        name: "CONTEXT",
        shape: Shape::Context,
        what: "a context USER:ROLE:TYPE, three names",
    },
    Part {
        name: "PATH",
        shape: Shape::Path,
        what: "a path: / or parts behind / of letters, digits, ., _ and -, none of them . or ..",
    },
    Part {
        name: "DATA",
        shape: Shape::Data,
        what: "a word of 1 to 1024 bytes",
    },
    Part {
        name: "[DATA]",
        shape: Shape::Data,
        what: "a word of 1 to 1024 bytes",
    },
    Part {
        name: "SLOT",
        shape: Shape::Number(0, 63),
        what: "a slot, 0 to 63",
    },
    Part {
        name: "TARGET",
        shape: Shape::Number(0, 63),
        what: "a slot, 0 to 63",
    },
    Part {
        name: "OFFSET",
        shape: Shape::Number(0, 65_536),
        what: "an offset, 0 to 65536",
    },
    Part {
        name: "LENGTH",
        shape: Shape::Number(1, 1024),
        what: "a length, 1 to 1024",
    },
    Part {
        name: "SKIP",
        shape: Shape::Number(0, 4096),
        what: "how many names are left out, 0 to 4096",
    },
    Part {
        name: "PID",
        shape: Shape::Number(1, 65_535),
        what: "a process, 1 to 65535",
    },
    Part {
        name: "NUMBER",
        shape: Shape::Number(1, 64),
        what: "a signal, 1 to 64",
    },
    Part {
        name: "CODE",
        shape: Shape::Number(0, 255),
        what: "a code, 0 to 255",
    },
    Part {
        name: "VALUE",
        shape: Shape::Number(0, 4_294_967_295),
        what: "a value, 0 to 4294967295",
    },
    Part {
        name: "PORT",
        shape: Shape::Number(1, 65_535),
        what: "a port, 1 to 65535",
    },
    Part {
        name: "VERSION",
        shape: Shape::Number(0, 255),
        what: "a version, 0 to 255",
    },
    Part {
        name: "COUNT",
        shape: Shape::Number(0, 4_294_967_295),
        what: "how many slots, 0 to 4294967295",
    },
    Part {
        name: "1",
        shape: Shape::Choice,
        what: "1, the version of the format",
    },
    Part {
        name: "",
        shape: Shape::Choice,
        what: "one of the words between the bars",
    },
];

/// The part of that name. A name that is none stands for the words between its bars.
pub(crate) fn part_named(name: &str) -> Part {
    'parts: for part in PARTS.iter() {
        if part.name == name {
            return *part;
        }
    }
    Part {
        name: "",
        shape: Shape::Choice,
        what: "one of the words between the bars",
    }
}

/// Whether a word has the form of the part of a name, whatever its size.
pub(crate) fn has_form(name: &str, text: &str) -> bool {
    let word = Word::new(text.as_bytes());
    match part_named(name).shape {
        Shape::Name | Shape::Kind => word.is_kind_form(),
        Shape::Source => word.is_kind_form() || text == "*",
        Shape::Target => word.is_name_form() || text == "*",
        Shape::Class | Shape::Client => word.is_name_form(),
        Shape::Permission => word.is_name_form() || text == "*",
        Shape::Context => context_form(text.as_bytes()).is_some(),
        Shape::Path => path_form(&word).is_some(),
        Shape::Data => true,
        Shape::Number(_, _) => numeral(&word).is_some(),
        Shape::Choice => is_choice(name, text),
    }
}

/// Whether a word is one of those between the bars.
fn is_choice(name: &str, word: &str) -> bool {
    'choices: for choice in name.split('|') {
        if choice == word {
            return true;
        }
    }
    false
}

/// Whether a word that has the form of the part of a name is within its limits.
pub(crate) fn is_within(name: &str, text: &str) -> bool {
    let word = Word::new(text.as_bytes());
    match part_named(name).shape {
        Shape::Name
        | Shape::Kind
        | Shape::Source
        | Shape::Target
        | Shape::Class
        | Shape::Permission
        | Shape::Client => !word.is_long(),
        Shape::Context => !is_long_context(text),
        Shape::Path => !is_long_path(&word),
        Shape::Data => text.len() <= 1024,
        Shape::Number(low, high) => is_between(&word, low, high),
        Shape::Choice => true,
    }
}

fn is_long_context(text: &str) -> bool {
    match context_form(text.as_bytes()) {
        None => false,
        Some(context) => context.is_long(),
    }
}

fn is_long_path(word: &Word<'_>) -> bool {
    match path_form(word) {
        None => false,
        Some(path) => path.is_long(),
    }
}

fn is_between(word: &Word<'_>, low: u64, high: u64) -> bool {
    match numeral(word) {
        None => true,
        Some(number) => low <= number && number <= high,
    }
}
