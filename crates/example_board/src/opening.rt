//! What a board is opened with.

use flask_sid::{Rows, Sid};

/// What a board is opened with. It says 0 then, and every slot is free.
#[derive(Debug, Drop)]
pub struct BoardOpening {
    /// The clients' identifiers, by client number.
    pub clients: Rows<Sid>,
    /// The board's label.
    pub label: Sid,
}

/// The number on a board that was opened just now.
pub const OPENING_NUMBER: u32 = 0;
