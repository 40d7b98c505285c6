//! Why there is no gate.

/// Why there is no gate, tested in this order.
#[derive(Clone, Copy, Debug, PartialEq, Eq)]
pub enum GateFault {
    /// The number of seats, where it is not 1 to 64.
    Seats(u8),
    /// The quota of a seat, where it is not 1 to 2^29.
    Quota(u32),
    /// The greatest policy number, where it is not 1 to 1,048,575.
    Most(u32),
    Memory,
}
