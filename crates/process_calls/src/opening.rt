//! What a process manager is opened with.

use flask_sid::{Rows, Sid};

/// What a process manager is opened with. No process runs then.
#[derive(Debug, Drop)]
pub struct ProcessOpening {
    /// The clients' identifiers, by client number.
    pub clients: Rows<Sid>,
}
