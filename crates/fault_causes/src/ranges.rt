//! Words past their limits, and one more than there may be.

use crate::counts::limit_of;
use crate::forms::part_for;
use crate::mistake::Mistake;
use crate::mistake::Piece::{Here, Name, Number, Other, Said};
use crate::parts::{Shape, is_within, part_named};
use crate::scene::Scene;

impl Scene<'_> {
    /// Which word is past its limit, or else of what there is one more than there may be.
    pub(crate) fn limit_mistake(&self, number: u32) -> Mistake {
        if number > 100_000 {
            return self.about("a text has at most 100000 lines");
        }
        if let Some(form) = self.form {
            'words: for at in 0..self.words.len() {
                let part = part_for(form, at);
                if !is_within(part, self.word(at)) {
                    return self.past(at, part_named(part).shape);
                }
            }
        }
        match limit_of(self.word(0)) {
            None => self.told(0, &[Said("there is one more than there may be")]),
            Some(most) => self
                .told(
                    0,
                    &[Said("there is one more than there may be: at most "), Name],
                )
                .with_name(most),
        }
    }

    fn past(&self, at: usize, shape: Shape) -> Mistake {
        let length = self.word(at).len() as u64;
        match shape {
            Shape::Number(low, high) => self
                .told(
                    at,
                    &[
                        Here,
                        Said(" is out of its range, "),
                        Number,
                        Said(" to "),
                        Other,
                    ],
                )
                .with_numbers(low, high),
            Shape::Data => self
                .told(
                    at,
                    &[
                        Said("a datum has at most 1024 bytes, and this one has "),
                        Number,
                    ],
                )
                .with_numbers(length, 0),
            Shape::Path => self.told(
                at,
                &[Said("a path has at most 16 parts, and each part at most 32 bytes")],
            ),
            Shape::Context => self.told(at, &[Said("each name of a context has at most 32 bytes")]),
            _ => self
                .told(
                    at,
                    &[
                        Said("a name has at most 32 bytes, and this one has "),
                        Number,
                    ],
                )
                .with_numbers(length, 0),
        }
    }
}
