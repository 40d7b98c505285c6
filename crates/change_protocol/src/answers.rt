//! What the coordinator answers.

/// Why a version is not given to all managers: number `Pending` is not complete yet, the decider has no such version, the
/// policy numbers are spent, or memory is wanted. After `Memory` the number is proposed, and the first `reached` managers
/// have its notice.
#[derive(Clone, Copy, Debug, PartialEq, Eq)]
pub enum NotifyAllFault {
    Pending(u32),
    NoVersion,
    Spent,
    Memory { reached: u8 },
}

/// What a manager says to the question whether it acknowledges: its receipt is kept, so many older passes are out, so many
/// slots are stale, or it has no notice.
#[derive(Clone, Copy, Debug, PartialEq, Eq)]
pub enum Said {
    Kept,
    Busy(u64),
    Behind(u64),
    Idle,
}

/// How a change stands after all were asked: nothing is proposed, the number is complete, or a receipt is missing.
#[derive(Clone, Copy, Debug, PartialEq, Eq)]
pub enum AckAll {
    Idle,
    Complete(u32),
    Waiting,
}
