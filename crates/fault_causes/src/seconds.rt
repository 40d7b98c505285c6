//! Second declarations.

use crate::declared::Sought;
use crate::mistake::Mistake;
use crate::mistake::Piece::{Here, Number, Said};
use crate::scene::Scene;

impl Scene<'_> {
    /// Where what a line declares was declared before.
    pub(crate) fn twice_mistake(&self) -> Mistake {
        match (self.word(0), self.word(1)) {
            ("client", "admin") => self.told(
                1,
                &[Said("admin is the administrator, and no client's name")],
            ),
            (_, "/") => self.told(1, &[Said("the root is there without a line of its own")]),
            ("audit", _) => self.second(0, self.line_above(Sought::Head("audit"))),
            (first, second) => self.second(1, self.line_before(first, second)),
        }
    }

    /// The line above that declares what a line with these words may not declare once more.
    fn line_before(&self, first: &str, second: &str) -> Option<u32> {
        match first {
            "type" | "attribute" => self.line_of_who(second),
            "dir" | "file" => match self.line_above(Sought::Declared("dir", second)) {
                Some(line) => Some(line),
                None => self.line_above(Sought::Declared("file", second)),
            },
            "port" => self.line_above(Sought::Port(second)),
            _ => self.line_above(Sought::Declared(first, second)),
        }
    }

    fn second(&self, at: usize, line: Option<u32>) -> Mistake {
        match line {
            None => self.told(at, &[Said("'"), Here, Said("' is declared a second time")]),
            Some(line) => self
                .told(
                    at,
                    &[
                        Said("'"),
                        Here,
                        Said("' is declared in line "),
                        Number,
                        Said(" already"),
                    ],
                )
                .with_line(line),
        }
    }
}
