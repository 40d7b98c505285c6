//! A faulty line with all that is looked at to explain it.

use crate::cause::Mark;
use crate::forms::form_of;
use crate::lines::{Span, line_at, lines_between, spans};
use crate::mistake::{Known, Mistake, Piece, Spot};
use crate::places::{Place, place_below};
use flask_sid::Memory;
use std::alloc::Global;

/// A faulty line: its words, its place, the lines above and below it, and its form, where it has one.
#[derive(Drop)]
pub(crate) struct Scene<'a> {
    pub(crate) alloc: Global,
    pub(crate) line: &'a [u8],
    pub(crate) words: Vec<Span<'a>>,
    pub(crate) above: Vec<(u32, &'a [u8])>,
    pub(crate) below: Vec<(u32, &'a [u8])>,
    pub(crate) place: Place,
    pub(crate) form: Option<&'static str>,
}

impl<'a> Scene<'a> {
    /// The line of a number, counted from 1. A line that is not there has no bytes.
    pub(crate) fn of(alloc: Global, bytes: &'a [u8], number: u32) -> Result<Scene<'a>, Memory> {
        let line = line_at(bytes, number).unwrap_or(&[]);
        let words = spans(alloc, line)?;
        let above = lines_between(alloc, bytes, 0, number)?;
        let below = lines_between(alloc, bytes, number, u32::MAX)?;
        let place = place_below(above.as_slice());
        let form = form_of(place, words.as_slice());
        Ok(Scene {
            alloc,
            line,
            words,
            above,
            below,
            place,
            form,
        })
    }

    /// The word at a place, counted from 0, or no letters where the line has no such word.
    pub(crate) fn word(&self, at: usize) -> &'a str {
        match self.words.get(at) {
            None => "",
            Some(word) => word.text,
        }
    }

    /// A mistake at the word of a place.
    pub(crate) fn told(&self, at: usize, what: &'static [Piece]) -> Mistake {
        Mistake {
            what,
            spot: Spot::Word(at),
            form: self.form,
            name: "",
            numbers: (0, 0),
            known: Known::Nothing,
        }
    }

    /// A mistake of the whole line.
    pub(crate) fn about(&self, what: &'static str) -> Mistake {
        let mut mistake = self.told(0, &[Piece::Name]).with_name(what);
        mistake.spot = Spot::Line;
        mistake
    }

    /// A mistake at some bytes, for which the form of the line does not matter.
    pub(crate) fn at_bytes(&self, from: usize, length: usize, what: &'static [Piece]) -> Mistake {
        let mut mistake = self.told(0, what);
        mistake.spot = Spot::Bytes(Mark { from, length });
        mistake.form = None;
        mistake
    }
}
