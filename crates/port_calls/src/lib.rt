//! What the port manager is asked and what it answers, and the plain port manager: the definition by which every answer
//! of the real one is judged. `specs/Plain.antt` is where to begin.
#![tactic(auto)]

mod call;
mod example;
mod opening;

pub use call::{PortCall, PortReply};
pub use example::one_port;
pub use opening::{LabelledPort, PortOpening};
