//! What the server answers.

/// Why a receipt is not taken.
#[derive(Clone, Copy, Debug, PartialEq, Eq)]
pub enum ReceiptFault {
    /// Only so many managers are registered.
    Foreign { manager: u8, registered: u8 },
    /// Its number is not the pending one, if one is pending.
    Old { number: u32, pending: Option<u32> },
    /// That receipt is in.
    Double { manager: u8, number: u32 },
}
