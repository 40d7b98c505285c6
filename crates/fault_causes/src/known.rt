//! The names that a word may be.

use crate::declared::behind_colons;
use crate::forms::{forms_in, part_at};
use crate::lines::word_at;
use crate::mistake::Known;
use crate::parts::Shape;
use crate::permissions::{CLASSES, put_permission_names};
use crate::places::Place;
use crate::scene::Scene;
use access_vectors::class_of;
use flask_sid::Memory;

static MANAGERS: [&str; 3] = ["file", "process", "port"];

static ADMIN: [&str; 1] = ["admin"];

static ALL: [&str; 1] = ["*"];

impl<'a> Scene<'a> {
    /// The names that a word at fault may be.
    pub(crate) fn names_of(&self, known: Known) -> Result<Vec<&'a str>, Memory> {
        let mut names = Vec::new(self.alloc);
        self.put_known(known, &mut names)?;
        Ok(names)
    }

    fn put_known(&self, known: Known, names: &mut Vec<&'a str>) -> Result<(), Memory> {
        match known {
            Known::Nothing => Ok(()),
            Known::Heads => self.put_heads(names),
            Known::Managers => put_words(&MANAGERS, names),
            Known::Calls(place) => self.put_calls(place, names),
            Known::Callers => {
                self.put_declared("client", names)?;
                put_words(&ADMIN, names)
            }
            Known::Part(shape) => self.put_taken(shape, names),
        }
    }

    /// Puts what a part of a shape takes.
    fn put_taken(&self, shape: Shape, names: &mut Vec<&'a str>) -> Result<(), Memory> {
        match shape {
            Shape::Kind => self.put_kinds(names),
            Shape::Source | Shape::Target => {
                self.put_kinds(names)?;
                self.put_declared("attribute", names)
            }
            Shape::Client => self.put_declared("client", names),
            Shape::Path => self.put_declared("dir", names),
            Shape::Context => self.put_declared("context", names),
            Shape::Class => put_words(&CLASSES, names),
            Shape::Permission => self.put_permissions(names),
            _ => Ok(()),
        }
    }

    /// Puts the permissions of the line's class.
    fn put_permissions(&self, names: &mut Vec<&'a str>) -> Result<(), Memory> {
        let Some(class) = class_of(self.word(3).as_bytes()) else {
            return Ok(());
        };
        put_permission_names(class, names)?;
        put_words(&ALL, names)
    }

    /// Puts what lines above with this first word declare.
    fn put_declared(&self, first: &str, names: &mut Vec<&'a str>) -> Result<(), Memory> {
        'lines: for (_, text) in self.above.as_slice() {
            if word_at(*text, 0) == first {
                names.push(word_at(*text, 1))?;
            }
        }
        Ok(())
    }

    /// Puts the types above: those of `type` lines, and those of contexts.
    fn put_kinds(&self, names: &mut Vec<&'a str>) -> Result<(), Memory> {
        self.put_declared("type", names)?;
        'lines: for (_, text) in self.above.as_slice() {
            if word_at(*text, 0) == "context" {
                names.push(behind_colons(word_at(*text, 1)))?;
            }
        }
        Ok(())
    }

    fn put_heads(&self, names: &mut Vec<&'a str>) -> Result<(), Memory> {
        'forms: for form in forms_in(self.place) {
            names.push(part_at(*form, 0))?;
        }
        Ok(())
    }

    /// Puts the calls of the manager whose word stands at a place: each stands behind it.
    fn put_calls(&self, place: usize, names: &mut Vec<&'a str>) -> Result<(), Memory> {
        let who = self.word(place);
        'forms: for form in forms_in(Place::Run) {
            let part = part_at(*form, place);
            if part == who || part.contains('|') {
                names.push(part_at(*form, place.saturating_add(1)))?;
            }
        }
        Ok(())
    }
}

fn put_words<'a>(words: &[&'a str], names: &mut Vec<&'a str>) -> Result<(), Memory> {
    'words: for word in words {
        names.push(*word)?;
    }
    Ok(())
}
