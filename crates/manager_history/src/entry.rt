//! Entries of a manager's history.

use crate::core_trait::Core;
use access_vectors::Questions;

/// An entry of a manager's history: an operation of a caller with its questions and its reply, a call that was aborted
/// since its policy number was forced out, the notice of a policy number, the acknowledgement of one, or a forced
/// acknowledgement. `mark` is the caller's own number of the call.
#[derive(Drop)]
pub enum Entry<K, R> {
    Op {
        caller: u8,
        mark: u32,
        call: K,
        number: u32,
        asked: Questions,
        reply: R,
    },
    Aborted {
        caller: u8,
        mark: u32,
        call: K,
        number: u32,
    },
    Notice {
        number: u32,
        version: u8,
    },
    Ack {
        number: u32,
    },
    Forced {
        number: u32,
    },
}

/// The history of a manager with that core, oldest entry first. Contracts see the list of its entries.
pub type History<'h, C> = &'h [Entry<<C as Core>::Call, <C as Core>::Reply>];
