//! Lines, words and numerals: the base of every reader of texts.
//!
//! A text is a list of lines, and a line is a list of words. The readers above say what the words of a line
//! mean. They share the way in which lines and words are cut, the kinds of fault, and the words in which a
//! contract says that a reader is exact.
#![tactic(auto)]

mod fault;
mod index;
mod line;
mod lines;
mod numerals;
mod words;

pub use fault::{FaultKind, Refusal, TextFault};
pub use index::{Key, WordIndex};
pub use line::{LINE_LIMIT, line_words};
pub use lines::{Line, Lines};
pub use numerals::{numeral, put_number};
pub use words::Words;
