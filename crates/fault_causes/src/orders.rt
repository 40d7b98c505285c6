//! Lines that may not stand where they do.

use crate::declared::Sought;
use crate::lines::word_at;
use crate::mistake::Mistake;
use crate::mistake::Piece::{Name, Number, Said, Word};
use crate::places::Place;
use crate::scene::Scene;

impl Scene<'_> {
    /// Why a line may not stand at its place.
    pub(crate) fn order_mistake(&self) -> Mistake {
        if self.place == Place::Run {
            return self.pass_mistake();
        }
        match self.line_above(Sought::Head("policy")) {
            None => self.told(
                0,
                &[Said("the first line that says anything has to be policy 1")],
            ),
            Some(line) => if self.word(0) == "policy" {
                self.told(
                    0,
                    &[
                        Said("the line policy 1 stands once, at the head: it stands in line "),
                        Number,
                        Said(" already"),
                    ],
                )
                .with_line(line)
            } else {
                self.version_mistake()
            },
        }
    }

    fn version_mistake(&self) -> Mistake {
        match self.line_above(Sought::Head("version")) {
            Some(line) => self.by_line(
                "declarations stand above the first version, which begins in line ",
                line,
            ),
            None => self.told(
                0,
                &[Said("a rule line stands in a version: a line version is missing above it")],
            ),
        }
    }

    /// The last `begin` or `end` above of the client and the manager of the line.
    fn last_pass(&self) -> Option<(u32, &str)> {
        let mut last = None;
        'lines: for (line, text) in self.above.as_slice() {
            let call = word_at(*text, 2);
            if word_at(*text, 0) == self.word(0)
                && word_at(*text, 1) == self.word(1)
                && (call == "begin" || call == "end")
            {
                last = Some((*line, call));
            }
        }
        last
    }

    fn pass_mistake(&self) -> Mistake {
        let Some((line, call)) = self.last_pass() else {
            return self.told(
                2,
                &[Word(0), Said(" has not begun with the manager "), Word(1)],
            );
        };
        let did = if call == "begin" {
            " has begun"
        } else {
            " has ended"
        };
        self.told(
            2,
            &[
                Word(0),
                Name,
                Said(" with the manager "),
                Word(1),
                Said(" in line "),
                Number,
                Said(" already"),
            ],
        )
        .with_name(did)
        .with_line(line)
    }
}
