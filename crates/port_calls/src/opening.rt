//! What a port manager is opened with.

use flask_sid::{Rows, Sid};

/// A port with a label of its own.
#[derive(Clone, Copy, Debug)]
pub struct LabelledPort {
    pub port: u32,
    pub sid: Sid,
}

/// What a port manager is opened with. No port is bound then.
#[derive(Debug, Drop)]
pub struct PortOpening {
    /// The clients' identifiers, by client number.
    pub clients: Rows<Sid>,
    /// The label of each port that has none of its own.
    pub initial: Sid,
    /// The ports with labels of their own.
    pub ports: Rows<LabelledPort>,
}
