//! Mistakes put into words.

use crate::cause::{Cause, Mark};
use crate::lines::text_of;
use crate::mistake::{Known, Mistake, Piece, Spot};
use crate::names::nearest;
use crate::parts::Shape;
use crate::permissions::{put_no_class, put_no_permission};
use crate::scene::Scene;
use crate::sentences::{put_all, put_listed, put_number};
use access_vectors::class_of;
use flask_sid::Memory;

impl<'a> Scene<'a> {
    /// What is told of a mistake.
    pub(crate) fn cause(&self, mistake: &Mistake) -> Result<Cause<'a>, Memory> {
        let nearest = self.near(mistake)?;
        let mut what = String::new(self.alloc);
        self.put_sentence(mistake, &mut what)?;
        Ok(Cause {
            what,
            mark: self.mark_of(mistake.spot),
            form: mistake.form,
            nearest,
        })
    }

    fn mark_of(&self, spot: Spot) -> Option<Mark> {
        match spot {
            Spot::Line => None,
            Spot::Bytes(mark) => Some(mark),
            Spot::Word(at) => Some(match self.words.get(at) {
                None => Mark {
                    from: self.line.len(),
                    length: 1,
                },
                Some(word) => Mark {
                    from: word.from,
                    length: word.text.len(),
                },
            }),
        }
    }

    /// The known name that is nearest to the word at fault: of a type where a context is wanted the first of its contexts.
    fn near(&self, mistake: &Mistake) -> Result<Option<&'a str>, Memory> {
        let word = self.here(mistake);
        let sought = match mistake.known {
            Known::Part(Shape::Context) => match self.context_of(word) {
                Some(name) => return Ok(Some(name)),
                None => word,
            },
            Known::Part(Shape::Path) => directory_of(word),
            _ => word,
        };
        let names = self.names_of(mistake.known)?;
        nearest(self.alloc, sought, names.as_slice())
    }

    fn put_sentence(&self, mistake: &Mistake, out: &mut String) -> Result<(), Memory> {
        'pieces: for piece in mistake.what {
            self.put_piece(mistake, *piece, out)?;
        }
        Ok(())
    }

    fn put_piece(&self, mistake: &Mistake, piece: Piece, out: &mut String) -> Result<(), Memory> {
        match piece {
            Piece::Number => put_number(out, mistake.numbers.0),
            Piece::Other => put_number(out, mistake.numbers.1),
            Piece::Names => put_listed(out, self.names_of(mistake.known)?.as_slice()),
            Piece::NoClass => put_no_class(out, self.here(mistake)),
            Piece::NoPermission => match class_of(self.word(3).as_bytes()) {
                None => Ok(()),
                Some(class) => put_no_permission(out, self.alloc, class, self.here(mistake)),
            },
            _ => put_all(out, &[self.piece_text(mistake, piece)]),
        }
    }

    /// The letters of a piece that the line has, or the mistake.
    fn piece_text(&self, mistake: &Mistake, piece: Piece) -> &'a str {
        match piece {
            Piece::Said(text) => text,
            Piece::Name => mistake.name,
            Piece::Word(at) => self.word(at),
            Piece::Here => self.here(mistake),
            Piece::Before => self.before(mistake),
            Piece::Directory => directory_of(self.here(mistake)),
            Piece::Role => self.role_of(self.here(mistake)).unwrap_or(""),
            Piece::Words => text_of(self.line).trim(),
            _ => "",
        }
    }

    /// The word at fault, or no letters where none is.
    fn here(&self, mistake: &Mistake) -> &'a str {
        match mistake.spot {
            Spot::Word(at) => self.word(at),
            _ => "",
        }
    }

    fn before(&self, mistake: &Mistake) -> &'a str {
        match mistake.spot {
            Spot::Word(at) => self.word(at.saturating_sub(1)),
            _ => "",
        }
    }
}

/// The path of the directory in which a path stands: no letters for the root.
pub(crate) fn directory_of(path: &str) -> &str {
    match path.rsplit_once('/') {
        None => "",
        Some((above, _name)) => above,
    }
}
