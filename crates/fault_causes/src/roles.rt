//! What a word is known as, where it stands in another word's place.

use crate::declared::{Sought, is_user};
use crate::forms::part_at;
use crate::mistake::Mistake;
use crate::mistake::Piece::{Here, Name, Said, Word};
use crate::permissions::class_with;
use crate::scene::Scene;
use access_vectors::class_of;

impl Scene<'_> {
    /// What a word is that is not of the kind that is wanted.
    pub(crate) fn role_of(&self, word: &str) -> Option<&'static str> {
        if class_of(word.as_bytes()).is_some() {
            return Some("a class");
        }
        if self.line_of_type(word).is_some() {
            return Some("a type");
        }
        if self.is_declared("attribute", word) {
            return Some("an attribute");
        }
        if self.is_declared("client", word) {
            return Some("a client");
        }
        self.other_role_of(word)
    }

    fn other_role_of(&self, word: &str) -> Option<&'static str> {
        match self.context(Sought::Owner(word)) {
            None => match class_with(word) {
                None => None,
                Some(_) => Some("a permission"),
            },
            Some(context) => Some(if is_user(context, word) {
                "the user of a context, and rules speak of types"
            } else {
                "the role of a context, and rules speak of types"
            }),
        }
    }

    /// What is wrong with a rule line that has something else where its class belongs, or its class too early.
    pub(crate) fn class_mistake(&self, form: &'static str) -> Option<Mistake> {
        if part_at(form, 3) != "CLASS" || self.words.len() < 4 {
            return None;
        }
        'places: for at in 1..3 {
            if self.is_class(at) && self.line_of_who(self.word(at)).is_none() {
                return Some(self.early_class(at, part_at(form, at)));
            }
        }
        if self.is_class(3) || self.role_of(self.word(3)).is_none() {
            return None;
        }
        Some(self.forgotten_class())
    }

    fn is_class(&self, at: usize) -> bool {
        class_of(self.word(at).as_bytes()).is_some()
    }

    fn early_class(&self, at: usize, part: &'static str) -> Mistake {
        self.told(
            at,
            &[
                Said("'"),
                Here,
                Said("' is a class, and stands where "),
                Name,
                Said(" belongs: source, target and class follow one another"),
            ],
        )
        .with_name(part)
    }

    fn forgotten_class(&self) -> Mistake {
        self.told(
            3,
            &[
                Said("S is "),
                Word(1),
                Said(", T is "),
                Word(2),
                Said(", and '"),
                Here,
                Said("' stands where CLASS belongs: file, dir, process, port or security"),
            ],
        )
    }
}
