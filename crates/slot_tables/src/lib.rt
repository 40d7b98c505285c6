//! Sets of numbered places and their indexes, in words of 64 bits, and a table of slots.
#![tactic(auto)]

mod place_index;
mod place_set;
mod table;

pub use place_index::PlaceIndex;
pub use place_set::PlaceSet;
pub use table::Table;
