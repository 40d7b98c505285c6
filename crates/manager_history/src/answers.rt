//! What a call and an acknowledgement answer.

use access_vectors::Receipt;

/// What a caller's call answers: it is done, with a reply, or it was aborted, since its policy number was forced out.
#[derive(Drop)]
pub enum Answer<R> {
    Did(R),
    Aborted,
}

/// What an acknowledgement answers: it is done, passes that it waits for are out, stale slots are left, or nothing is
/// pending.
#[derive(Clone, Copy, Debug, PartialEq, Eq)]
pub enum Ack {
    Done(Receipt),
    Busy { older: u64 },
    Behind { left: u64 },
    Idle,
}
