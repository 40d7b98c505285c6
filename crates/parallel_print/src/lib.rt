//! Items that are printed in their order, while their texts are put together in threads.
#![tactic(auto)]

mod parts;
mod rounds;
mod wording;

pub use rounds::write_all;
pub use wording::Wording;
