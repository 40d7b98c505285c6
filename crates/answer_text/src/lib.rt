//! What calls got, as lines of words: the replies of the three managers, what stands in front of them, and a summary.
#![tactic(auto)]

mod fronts;
mod replies;
mod summary;

pub use fronts::{Front, put_aborted, put_front};
pub use replies::Worded;
pub use summary::put_summary;
