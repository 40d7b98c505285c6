//! Which way information can get from one type to another under a version of a policy, and which way a domain can be
//! entered: the shortest chain of questions that the version allows.
//!
//! Nodes are the types of a catalogue's contexts. One pass over the version's vectors tells between which types no hop leads.
//! The distances from the end are found level by level; the path is then read off from its beginning, at each node by the
//! first that is one hop nearer.
#![tactic(auto)]

mod finder;
mod hop;
mod levels;
mod nodes;
mod reach;
mod route;
mod search;
mod way;
mod words;

pub use hop::{Hop, Path};
pub use nodes::is_node;
pub use route::Kind;
pub use search::shortest;
