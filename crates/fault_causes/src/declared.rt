//! What the lines above and below a line declare.

use crate::lines::word_at;
use crate::scene::Scene;

/// What is looked for among lines.
#[derive(Clone, Copy)]
pub(crate) enum Sought<'n> {
    /// A line with this first word.
    Head(&'n str),
    /// A line with this first word that declares the second.
    Declared(&'n str, &'n str),
    /// A context of this type.
    Kind(&'n str),
    /// A context of this user or role.
    Owner(&'n str),
    /// The label of a port, however its number is written.
    Port(&'n str),
    /// Any line that declares this name.
    Any(&'n str),
}

impl<'a> Scene<'a> {
    /// The number of the first such line above.
    pub(crate) fn line_above(&self, sought: Sought<'_>) -> Option<u32> {
        Some(first_of(self.above.as_slice(), sought)?.0)
    }

    /// The number of the first such line below.
    pub(crate) fn line_below(&self, sought: Sought<'_>) -> Option<u32> {
        Some(first_of(self.below.as_slice(), sought)?.0)
    }

    /// The first such context above.
    pub(crate) fn context(&self, sought: Sought<'_>) -> Option<&'a str> {
        Some(word_at(first_of(self.above.as_slice(), sought)?.1, 1))
    }

    /// The first context above of a type.
    pub(crate) fn context_of(&self, kind: &str) -> Option<&'a str> {
        self.context(Sought::Kind(kind))
    }

    /// The line above that declares a type: a `type` line, or else a context.
    pub(crate) fn line_of_type(&self, name: &str) -> Option<u32> {
        match self.line_above(Sought::Declared("type", name)) {
            Some(line) => Some(line),
            None => self.line_above(Sought::Kind(name)),
        }
    }

    /// The line above that declares a type or an attribute.
    pub(crate) fn line_of_who(&self, name: &str) -> Option<u32> {
        match self.line_of_type(name) {
            Some(line) => Some(line),
            None => self.line_above(Sought::Declared("attribute", name)),
        }
    }

    /// Whether a line above with this first word declares a name.
    pub(crate) fn is_declared(&self, first: &str, name: &str) -> bool {
        self.line_above(Sought::Declared(first, name)).is_some()
    }
}

/// The first of some lines that is what is looked for, with its number.
fn first_of<'a>(lines: &[(u32, &'a [u8])], sought: Sought<'_>) -> Option<(u32, &'a [u8])> {
    'lines: for line in lines {
        if is_sought(line.1, sought) {
            return Some(*line);
        }
    }
    None
}

fn is_sought(line: &[u8], sought: Sought<'_>) -> bool {
    let (first, second) = (word_at(line, 0), word_at(line, 1));
    match sought {
        Sought::Head(head) => first == head,
        Sought::Declared(head, name) => first == head && second == name,
        Sought::Kind(name) => first == "context" && behind_colons(second) == name,
        Sought::Owner(name) => first == "context" && is_owner(second, name),
        Sought::Port(number) => first == "port" && without_zeros(second) == without_zeros(number),
        Sought::Any(name) => declares(first, second, name),
    }
}

/// Whether a line with these words declares a name.
fn declares(first: &str, second: &str, name: &str) -> bool {
    match first {
        "context" => second == name || behind_colons(second) == name,
        "type" | "attribute" | "client" | "dir" => second == name,
        _ => false,
    }
}

/// Whether a name is the user or the role of a context.
fn is_owner(context: &str, name: &str) -> bool {
    is_user(context, name) || context.split(':').nth(1) == Some(name)
}

/// Whether a name is the user of a context.
pub(crate) fn is_user(context: &str, name: &str) -> bool {
    context.split(':').nth(0) == Some(name)
}

/// The last of the names of a context.
pub(crate) fn behind_colons(context: &str) -> &str {
    context.split(':').last().unwrap_or("")
}

/// The digits of a number without the zeros at its front.
fn without_zeros(digits: &str) -> &str {
    digits.trim_start_matches('0')
}
