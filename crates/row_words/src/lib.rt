//! The words of a station's table: how a policy number, a version and a count of passes stand in one word, and
//! how a cached answer stands in another.
//!
//! A gate word has the policy number in its bits 44 to 63, the version in bits 36 to 43 and the passes entered in
//! bits 0 to 35. A row has the policy number in bits 44 to 63, the source in 32 to 43, the target in 20 to 31, the
//! class code in 16 to 19 and the vector in 0 to 15. No call takes memory.
#![tactic(auto)]

mod gate_words;
mod rows;

pub use gate_words::{gate_word, raise_by, split_gate};
pub use rows::{ROWS, row_place, row_word, split_row};
