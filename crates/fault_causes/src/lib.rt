//! Causes of faults: what is wrong with a line that a reader refuses, told from its text and from the lines above it.
//!
//! The readers say which line is the first faulty one and which kind of fault it has. Here that line is looked at once more: which
//! word is at fault, what was wanted in its place, and which mistake it looks like. No clause rests on these texts.
#![tactic(auto)]

mod cause;
mod counts;
mod declared;
mod ends;
mod explaining;
mod foreign;
mod forms;
mod heads;
mod known;
mod lines;
mod misfits;
mod mistake;
mod names;
mod orders;
mod parts;
mod permissions;
mod places;
mod ranges;
mod roles;
mod scene;
mod seconds;
mod sentences;
mod unknowns;
mod wording;

pub use cause::{Cause, Mark};
pub use explaining::explain;
pub use lines::{Lines, line_at, line_count, text_of};
pub use names::nearest;
pub use permissions::{CLASSES, permission_names, put_no_class, put_no_permission};
pub use sentences::{gap_before, joined, put_all, put_listed, put_number};
