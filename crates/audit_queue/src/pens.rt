//! The pens of a queue of audit lines, and its taker.

ghost use Rattle.std.specs.Prelude.{◌≡◌};

use crate::knowledge::LinePass;
use std::marker::Model;

/// With what a client's thread posts its lines. Contracts see its queue, its number, and the lines that it posted.
#[derive(Drop)]
pub struct Pen {
    pub(crate) pass: LinePass,
    pub(crate) number: u8,
}

impl Model for Pen {
    ghost use Rattle.audit_queue.specs.Pens.{Posted, IsPosting, knows};

    ghost Value = { Posted };

    ghost view = { λ pen. record { queue = record { web = pen.pass.web; heap = pen.pass.heap }; number = pen.number; lines = (knows pen.pass).put } };

    ghost invariant = { λ pen. IsPosting pen.number pen.pass };
}

impl Pen {
    /// Whose lines it posts: the client of this number.
    pub fn number(&self) -> u8
        ensures { result ≡ self.now.number }
    {
        self.number
    }
}

/// What makes the pens of a queue, and takes their lines once they are retired. Contracts see its queue, how many pens there may be, how many were made,
/// and what the retired ones posted.
#[derive(Drop)]
pub struct Taker {
    pub(crate) pass: LinePass,
    pub(crate) clients: u8,
    pub(crate) made: u8,
}

impl Model for Taker {
    ghost use Rattle.std.specs.Prelude.{◌≡◌, ◌≤◌, []};
    ghost use Rattle.audit_queue.specs.Pens.{Taken, IsTaking, knows};

    ghost Value = { Taken };

    ghost view = { λ taker. record { queue = record { web = taker.pass.web; heap = taker.pass.heap }; clients = taker.clients; made = taker.made; kept = (knows taker.pass).kept } };

    // Nothing is taken before all pens are retired.
    ghost invariant = { λ taker. IsTaking taker.made taker.pass × (taker.made ≤ taker.clients) × ((knows taker.pass).got ≡ []) };
}
