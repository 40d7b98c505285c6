//! The port manager: ports that clients bind and connect to, and the messages that wait there, used through slots.
//!
//! `PortCore` is the manager's state. Its calls answer as the plain manager of `port_calls` does, which keeps finite maps
//! and no cache, and asks the whole mode at each use of a slot. The code keeps for each slot whether its whole mode is
//! allowed: a use through a slot that follows the call's policy number looks at that and asks nobody.
#![tactic(auto)]

mod binds;
mod port_core;
mod receives;
mod replies;
mod sends;
mod serving;
mod slots;
mod stats;
mod unbinds;

pub use port_calls::{LabelledPort, PortCall, PortOpening, PortReply};
pub use port_core::{PortCore, new};
