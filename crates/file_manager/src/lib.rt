//! The file manager: directories and files, reached by paths through a policy and used through slots.
//!
//! `FileCore` is the manager's state. Its calls answer as the plain manager of `file_calls` does, which keeps finite maps
//! and no cache, and asks at each use of a slot. The code keeps for each slot the bits of its mode that are usable: a use
//! through a slot that follows the call's policy number looks at them and asks nobody.
#![tactic(auto)]

mod closes;
mod file_core;
mod gives;
mod lists;
mod makes;
mod opens;
mod reads;
mod relabels;
mod replies;
mod serving;
mod slots;
mod stats;
mod unlinks;
mod walks;
mod writes;

pub use file_calls::{FileCall, FileOpening, FilePath, FileReply, Node};
pub use file_core::{FileCore, new};
