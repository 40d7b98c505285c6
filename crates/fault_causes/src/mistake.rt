//! Mistakes: what is wrong with a line, before it is put into words.
//!
//! A mistake is a plain value that owns nothing. So each look at a line is a function that cannot fail, and only `wording` takes memory.

use crate::cause::Mark;
use crate::parts::Shape;

/// A piece of the sentence that tells a mistake.
#[derive(Clone, Copy)]
pub(crate) enum Piece {
    Said(&'static str),
    /// The word at a place of the line, counted from 0.
    Word(usize),
    /// The word at fault.
    Here,
    /// The word before the one at fault.
    Before,
    /// The directory in which the path at fault stands.
    Directory,
    /// What the word at fault is known as.
    Role,
    /// The words of the line, as they stand.
    Words,
    /// The mistake's name.
    Name,
    /// The mistake's first number.
    Number,
    /// Its second number.
    Other,
    /// The names that the word at fault may be.
    Names,
    /// That the word at fault is no class.
    NoClass,
    /// That it is no permission of the line's class.
    NoPermission,
}

/// Where a mistake stands: at the word of a place, behind the line where it has no such word, at some bytes, or in no one place.
#[derive(Clone, Copy)]
pub(crate) enum Spot {
    Word(usize),
    Bytes(Mark),
    Line,
}

/// The names that a word at fault may be.
#[derive(Clone, Copy)]
pub(crate) enum Known {
    Nothing,
    /// The first words of the lines that may stand there.
    Heads,
    Managers,
    /// The calls of the manager, or of the administrator, whose word stands at this place.
    Calls(usize),
    /// Clients and the administrator.
    Callers,
    /// What a part of this shape takes.
    Part(Shape),
}

/// What is wrong with a line.
#[derive(Clone, Copy)]
pub(crate) struct Mistake {
    /// The sentence that tells it.
    pub(crate) what: &'static [Piece],
    pub(crate) spot: Spot,
    /// The form of such a line.
    pub(crate) form: Option<&'static str>,
    /// A name that the sentence says.
    pub(crate) name: &'static str,
    /// Numbers that it says.
    pub(crate) numbers: (u64, u64),
    pub(crate) known: Known,
}

impl Mistake {
    /// The mistake with a name that its sentence says.
    pub(crate) fn with_name(mut self, name: &'static str) -> Mistake {
        self.name = name;
        self
    }

    /// The mistake with numbers that its sentence says.
    pub(crate) fn with_numbers(mut self, first: u64, second: u64) -> Mistake {
        self.numbers = (first, second);
        self
    }

    /// The mistake with the number of another line, which its sentence says.
    pub(crate) fn with_line(self, line: u32) -> Mistake {
        self.with_numbers(u64::from(line), 0)
    }

    /// The mistake with the names that its word may be.
    pub(crate) fn with_known(mut self, known: Known) -> Mistake {
        self.known = known;
        self
    }
}
