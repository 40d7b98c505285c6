//! Processes.

use flask_sid::Sid;

/// A process, which runs or has ended.
#[derive(Clone, Copy, Debug)]
pub struct Process {
    pub label: Sid,
    /// The client whose child it is.
    pub parent: u8,
    /// The code with which it ended; `None` while it runs.
    pub ended: Option<u32>,
    pub register: u32,
}
