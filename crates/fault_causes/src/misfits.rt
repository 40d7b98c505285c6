//! Words that have not the form of their part, words that are missing and words too many.

use crate::forms::{least_words, part_at, part_for};
use crate::mistake::Piece::{Here, Name, Said};
use crate::mistake::{Known, Mistake};
use crate::parts::{Part, Shape, has_form, part_named};
use crate::scene::Scene;

impl Scene<'_> {
    /// What is wrong with the form of a line whose first words are known.
    pub(crate) fn misfit(&self, form: &'static str) -> Option<Mistake> {
        'words: for at in 0..self.words.len() {
            let part = part_for(form, at);
            if part.is_empty() {
                return Some(self.extra(form, at));
            }
            if !self.fits(at, part) {
                return Some(self.wrong(at, part));
            }
        }
        if self.words.len() < least_words(form) {
            return Some(self.missing(form));
        }
        None
    }

    /// Whether the word at a place has the form of a part. A part of small letters stands as it is.
    fn fits(&self, at: usize, part: &str) -> bool {
        let word = self.word(at);
        match (part, word) {
            ("PERM", "*") => self.words.len() == 5,
            ("PATH", "/") => !self.wants_entry(),
            ("CLIENT", "admin") => false,
            _ => part == word || has_form(part, word),
        }
    }

    /// Whether the line makes or takes away an entry, so that its path cannot be that of the root.
    fn wants_entry(&self) -> bool {
        match (self.word(1), self.word(2)) {
            ("file", "mkdir" | "create" | "unlink") => true,
            _ => false,
        }
    }

    fn wrong(&self, at: usize, part: &'static str) -> Mistake {
        if let Some(what) = misused(part, self.word(at)) {
            return self.told(at, &[Name]).with_name(what);
        }
        if part.contains('|') {
            return self
                .told(at, &[Said("'"), Here, Said("' is none of "), Name])
                .with_name(part);
        }
        let Part { shape, what, .. } = part_named(part);
        match why_not(shape, self.word(at)) {
            "" => self.is_not(at, what, shape),
            why => self
                .told(at, &[Said("'"), Here, Said("' has "), Name])
                .with_name(why)
                .with_known(known_of(shape)),
        }
    }

    fn is_not(&self, at: usize, what: &'static str, shape: Shape) -> Mistake {
        self.told(at, &[Said("'"), Here, Said("' is not "), Name])
            .with_name(what)
            .with_known(known_of(shape))
    }

    fn missing(&self, form: &'static str) -> Mistake {
        let at = self.words.len();
        let part = part_at(form, at);
        if part.contains('|') {
            return self
                .told(at, &[Said("a word is missing: one of "), Name])
                .with_name(part);
        }
        self.told(at, &[Said("a word is missing: "), Name])
            .with_name(part_named(part).what)
    }

    fn extra(&self, form: &str, at: usize) -> Mistake {
        let why = if form.ends_with("DATA") || form.ends_with("[DATA]") {
            ": a datum is one word"
        } else {
            ""
        };
        self.told(at, &[Said("a word too many: '"), Here, Said("'"), Name])
            .with_name(why)
    }
}

/// What is said of words that have a meaning of their own, in the place of a part where they have none.
static MISUSED: [(&str, &str, &str); 7] = [
    (
        "*",
        "PERM",
        "* stands for all permissions of the class, and alone",
    ),
    ("*", "CLASS", "* stands for no class: a line has one class"),
    (
        "/",
        "PATH",
        "the root is there already: the path of this call is not /",
    ),
    (
        "self",
        "NAME",
        "self names no type and no attribute: it stands as a target alone",
    ),
    (
        "self",
        "TYPE",
        "self names no type and no attribute: it stands as a target alone",
    ),
    (
        "self",
        "S",
        "self names no type and no attribute: it stands as a target alone",
    ),
    (
        "admin",
        "CLIENT",
        "admin is the administrator, and calls no manager: notify, update, ack and force are what it does",
    ),
];

fn misused(part: &str, word: &str) -> Option<&'static str> {
    'words: for misuse in MISUSED.iter() {
        let (other, place, said) = *misuse;
        if other == word && place == part {
            return Some(said);
        }
    }
    None
}

/// What a word has that no word of a shape has, where that is known, and else no letters.
fn why_not(shape: Shape, word: &str) -> &'static str {
    match shape {
        Shape::Path | Shape::Data | Shape::Choice => "",
        Shape::Number(_, _) if word.len() > 10 && is_of_digits(word) => {
            "more than 10 digits: a number has at most 10, with the zeros at its front"
        }
        Shape::Number(_, _) => "",
        _ if word.contains(',') => "a comma: names are parted by spaces alone",
        Shape::Context if word.split(':').nth(3).is_some() => {
            "a level behind its type, as in SELinux: a context is USER:ROLE:TYPE here, three names"
        }
        _ if has_capital(word) => "a capital letter: names have small letters alone",
        _ => "",
    }
}

/// The names that a word of a shape may be.
fn known_of(shape: Shape) -> Known {
    match shape {
        Shape::Path | Shape::Data | Shape::Number(_, _) | Shape::Choice => Known::Nothing,
        _ => Known::Part(shape),
    }
}

fn is_of_digits(word: &str) -> bool {
    'bytes: for b in word.as_bytes() {
        if !b.is_ascii_digit() {
            return false;
        }
    }
    true
}

/// Whether a word has a capital letter.
pub(crate) fn has_capital(word: &str) -> bool {
    'bytes: for b in word.as_bytes() {
        if b.is_ascii_uppercase() {
            return true;
        }
    }
    false
}
