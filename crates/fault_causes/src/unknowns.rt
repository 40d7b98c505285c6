//! Names that nothing above declares.

use crate::declared::Sought;
use crate::forms::part_for;
use crate::mistake::Piece::{Directory, Here, Name, NoClass, NoPermission, Number, Role, Said};
use crate::mistake::{Known, Mistake};
use crate::parts::{Shape, part_named};
use crate::places::Place;
use crate::scene::Scene;
use crate::wording::directory_of;
use access_vectors::{class_of, perm_of};

impl Scene<'_> {
    /// Which name is unknown, with the names that it may be.
    pub(crate) fn unknown_mistake(&self) -> Option<Mistake> {
        let form = self.form?;
        if let Some(mistake) = self.class_mistake(form) {
            return Some(mistake);
        }
        'words: for at in 0..self.words.len() {
            let shape = part_named(part_for(form, at)).shape;
            if let Some(mistake) = self.unknown_at(at, shape) {
                return Some(mistake.with_known(Known::Part(shape)));
            }
        }
        None
    }

    /// The mistake where the word at a place is none of the names that it may be.
    fn unknown_at(&self, at: usize, shape: Shape) -> Option<Mistake> {
        match shape {
            Shape::Class => self.no_class(at),
            Shape::Permission => self.no_permission(at),
            Shape::Path => self.no_parent(at),
            Shape::Kind | Shape::Source | Shape::Target | Shape::Client => {
                self.undeclared_name(at, shape)
            }
            _ => None,
        }
    }

    /// The mistake where the word at a place is none of the declared names.
    fn undeclared_name(&self, at: usize, shape: Shape) -> Option<Mistake> {
        let word = self.word(at);
        let (line, what) = match shape {
            Shape::Kind => (self.line_of_type(word), "type"),
            Shape::Client => (self.line_above(Sought::Declared("client", word)), "client"),
            _ => (self.line_of_who(word), "type or attribute"),
        };
        if word == "*" || word == "self" || line.is_some() {
            return None;
        }
        Some(self.no_such(at).with_name(what))
    }

    /// A name is not declared above: what it is, or which line below declares it, if any does.
    fn no_such(&self, at: usize) -> Mistake {
        let word = self.word(at);
        if self.role_of(word).is_some() {
            return self.told(
                at,
                &[
                    Said("no "),
                    Name,
                    Said(" '"),
                    Here,
                    Said("' is declared above: it is "),
                    Role,
                ],
            );
        }
        match self.line_below(Sought::Any(word)) {
            None => self.told(
                at,
                &[
                    Said("no "),
                    Name,
                    Said(" '"),
                    Here,
                    Said("' is declared above"),
                ],
            ),
            Some(line) => self
                .told(
                    at,
                    &[
                        Said("no "),
                        Name,
                        Said(" '"),
                        Here,
                        Said("' is declared above: line "),
                        Number,
                        Said(", below, declares it"),
                    ],
                )
                .with_line(line),
        }
    }

    fn no_class(&self, at: usize) -> Option<Mistake> {
        match class_of(self.word(at).as_bytes()) {
            None => Some(self.told(at, &[NoClass])),
            Some(_) => None,
        }
    }

    /// The mistake where the word at a place is no permission of the line's class.
    fn no_permission(&self, at: usize) -> Option<Mistake> {
        let word = self.word(at);
        let class = class_of(self.word(3).as_bytes())?;
        if word == "*" || perm_of(class, word.as_bytes()).is_some() {
            return None;
        }
        Some(match class_of(word.as_bytes()) {
            None => self.told(at, &[NoPermission]),
            Some(_) => self.told(
                at,
                &[
                    Said("'"),
                    Here,
                    Said("' is a class, and a line has one class"),
                ],
            ),
        })
    }

    /// The mistake where the path of a place stands in no directory of a line above.
    fn no_parent(&self, at: usize) -> Option<Mistake> {
        let above = directory_of(self.word(at));
        if self.place != Place::Setup || above.is_empty() || self.is_declared("dir", above) {
            return None;
        }
        Some(self.no_directory(at, above))
    }

    fn no_directory(&self, at: usize, above: &str) -> Mistake {
        if let Some(line) = self.line_above(Sought::Declared("file", above)) {
            return self
                .told(
                    at,
                    &[
                        Said("'"),
                        Directory,
                        Said("' is a file, made by line "),
                        Number,
                    ],
                )
                .with_line(line);
        }
        match self.line_below(Sought::Any(above)) {
            None => self.told(
                at,
                &[
                    Said("no line above makes the directory '"),
                    Directory,
                    Said("'"),
                ],
            ),
            Some(line) => self
                .told(
                    at,
                    &[
                        Said("'"),
                        Directory,
                        Said("' is made below this line, by line "),
                        Number,
                    ],
                )
                .with_line(line),
        }
    }

    /// The context that no line declares.
    pub(crate) fn undeclared_mistake(&self) -> Option<Mistake> {
        let form = self.form?;
        'words: for at in 0..self.words.len() {
            if part_for(form, at) == "CONTEXT" {
                return Some(
                    self.undeclared_context(at)
                        .with_known(Known::Part(Shape::Context)),
                );
            }
        }
        None
    }

    fn undeclared_context(&self, at: usize) -> Mistake {
        match self.line_below(Sought::Any(self.word(at))) {
            None => self.told(at, &[Said("no line above says context "), Here]),
            Some(line) => self
                .told(
                    at,
                    &[
                        Said("no line above says context "),
                        Here,
                        Said(": line "),
                        Number,
                        Said(", below, does"),
                    ],
                )
                .with_line(line),
        }
    }
}
