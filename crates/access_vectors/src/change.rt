//! What object managers and the security server answer in a change of policy.

/// Why no change to a version is begun: change `Pending` is not complete yet, the decider has no such version, the
/// policy numbers are spent, or memory is wanted.
#[derive(Clone, Copy, Debug, PartialEq, Eq)]
pub enum NotifyFault {
    Pending(u32),
    NoVersion,
    Spent,
    Memory,
}

/// That a manager has acknowledged a policy number.
#[derive(Clone, Copy, Debug, PartialEq, Eq)]
pub struct Receipt {
    pub manager: u8,
    pub number: u32,
}
