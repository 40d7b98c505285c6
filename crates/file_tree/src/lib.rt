//! A tree of files and directories: numbered nodes, and an index of their entries by directory, key and name.
#![tactic(auto)]

mod entries;
mod listing;
mod node;
mod shelf;
mod slots;
mod step;
mod tree;
mod writing;

pub use node::Node;
pub use step::{Step, copy_path};
pub use tree::Tree;
