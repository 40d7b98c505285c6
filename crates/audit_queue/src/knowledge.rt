//! What the queue's passes know, and the rule of the queue.

ghost use Rattle.std.specs.Prelude.{◌≡◌, ◌++◌, ◌∷◌, [], ◌+◌, true, false};
ghost use Rattle.audit_queue.specs.Delivery;

use audit_log::AuditLine;
use crossbeam_queue::protocol::{Join, Lesson, Outcome, Protocol, Split};
use crossbeam_queue::{RuledSegQueue, SegPass};
use std::collections::LinkedList;

/// What a retired pen posted. No value of it is made.
pub struct KeptLines {
    pub pen: u64,
    pub lines: LinkedList<AuditLine>,
}

/// What a pass of the queue knows: a pen's what it posted, the taker's how many pens it made, what the retired ones posted, and what it got so far. No
/// value of it is made.
pub struct Knowledge {
    pub posts: bool,
    pub number: u64,
    pub put: LinkedList<AuditLine>,
    pub takes: bool,
    pub made: u64,
    pub kept: LinkedList<KeptLines>,
    pub got: LinkedList<AuditLine>,
}

/// The rule: of each pen's lines some were got, and the others are in the queue.
pub(crate) struct Delivery;

impl Protocol<AuditLine, Knowledge> for Delivery {
    ghost holds = { Delivery.Delivers };

    ghost first = { Delivery.taking };
}

/// A pen posted a line.
pub(crate) struct Posts;

impl Outcome<AuditLine, Knowledge> for Posts {
    ghost then = { λ before line after. after ≡ record before { put = before.put ++ line ∷ [] } };
}

/// The taker made a pen.
pub(crate) struct Makes;

impl Split<Knowledge> for Makes {
    ghost left = { λ before. record before { made = before.made + 1 } };

    ghost right = { λ before. Delivery.pen_of before.made };
}

/// The taker keeps what a pen posted.
pub(crate) struct Keeps;

impl Join<Knowledge> for Keeps {
    ghost both = { λ taker pen. record taker { kept = taker.kept ++ record { pen = pen.number; lines = pen.put } ∷ [] } };

    ghost spent = { Delivery.idle };
}

/// The taker got a line; or what is left is told.
pub(crate) struct Gets;

impl Outcome<AuditLine, Knowledge> for Gets {
    ghost then = { Delivery.HasGot };
}

impl Lesson<AuditLine, Knowledge> for Gets {
    ghost fact = { Delivery.IsLeft };
}

pub(crate) type LineQueue = RuledSegQueue<AuditLine, Knowledge, Delivery>;

pub(crate) type LinePass = SegPass<AuditLine, Knowledge>;
