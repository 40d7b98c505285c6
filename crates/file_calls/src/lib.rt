//! What the file manager is asked and what it answers, and the plain file manager: the definition by which every
//! answer of the real one is judged. `specs/Plain.antt` is where to begin.
#![tactic(auto)]

mod call;
mod example;
mod opening;
mod path;

pub use call::{FileCall, FileReply};
pub use example::one_file;
pub use opening::{FileOpening, Node};
pub use path::FilePath;
