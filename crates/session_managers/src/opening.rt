//! What the managers of a session are opened with.

use file_calls::FileOpening;
use port_calls::PortOpening;
use process_calls::ProcessOpening;

/// What the three managers are opened with.
#[derive(Debug, Drop)]
pub struct Openings {
    pub files: FileOpening,
    pub processes: ProcessOpening,
    pub ports: PortOpening,
}
