//! What a session is run with.

use session_managers::Openings;
use session_text::RunLine;

/// What a session is run with: what its managers are opened with, how many clients it has, and its lines.
#[derive(Drop)]
pub struct Plan {
    pub openings: Openings,
    pub clients: u8,
    pub lines: Vec<RunLine>,
}
