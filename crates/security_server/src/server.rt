//! The server: a decider, the policy numbers, and the receipts for the number that is proposed.

ghost use Rattle.std.specs.Prelude.{◌≡◌, ◌<◌, ◌≤◌, false, IsTrue, IfErr, IfOk, OnErr, OnOk, None, Some};
ghost use Rattle.access_vectors.specs.Phases.{is_pending};
ghost use Rattle.security_server.specs.Numbering;

use crate::answers::ReceiptFault;
use access_vectors::{Class, Decider, NotifyFault, Phase, Receipt, Vector};
use flask_sid::Sid;
use std::marker::Model;

/// How many managers may be registered.
const MANAGERS: usize = 16;

/// A decider, the policy number that is in force or proposed, and the receipts for the proposed one. Contracts see a
/// record `ServerView`.
#[derive(Debug, Drop)]
pub struct Server<'d, D: Decider> {
    decider: &'d D,
    managers: u8,
    most: u32,
    phase: Phase,
    receipts: [bool; MANAGERS],
}

impl<'d, D: Decider> Model for Server<'d, D> {
    ghost use Rattle.std.specs.Prelude.{◌≡◌, ◌≤◌, ◌<◌, false};
    ghost use Rattle.access_vectors.specs.Phases.{number_of, is_pending, AreVersions};
    ghost use Rattle.security_server.specs.Numbering.{ServerView, server_code, no_receipts};

    ghost Value = { ServerView D };

    ghost coded = { server_code D.code };

    ghost view = { λ server. record {
      decider = server.decider.now;
      managers = server.managers;
      most = server.most;
      phase = server.phase;
      receipts = server.receipts;
    } };

    ghost invariant = { λ server. (server.managers ≤ 16)
        × (server.most ≤ 1048575)
        × (number_of server.phase ≤ server.most)
        × AreVersions (D.decides server.decider.now).versions server.phase
        × (is_pending server.phase ≡ false → server.receipts ≡ no_receipts) };
}

impl<'d, D: Decider> Server<'d, D> {
    /// A server for so many managers, 1 to 16, whose policy numbers end at `most`, 1 to 1,048,575. Number 0 with version 0
    /// is settled.
    pub fn new(decider: &'d D, managers: u8, most: u32) -> Server<'d, D>
        requires some { 0 < managers }
        requires few { managers ≤ 16 }
        requires first { 0 < most }
        requires last { most ≤ 1048575 }
        ensures { result ≡ Numbering.opened decider.now managers most }
    {
        Server {
            decider,
            managers,
            most,
            phase: Phase::Settled {
                number: 0,
                version: 0,
            },
            receipts: [false; MANAGERS],
        }
    }

    /// The permissions of a class that a source has on a target, in a version.
    pub fn av(&self, ver: u8, s: Sid, t: Sid, c: Class) -> Vector
        requires version { ver < (D.decides self.now.decider).versions }
        requires source { IsTrue ((D.decides self.now.decider).known s) }
        requires target { IsTrue ((D.decides self.now.decider).known t) }
        ensures { result ≡ (D.decides self.now.decider).vector ver s t c }
    {
        self.decider.vector(ver, s, t, c)
    }

    /// The label of a new object of a class that a source makes at a target, in a version.
    pub fn label(&self, ver: u8, s: Sid, t: Sid, c: Class) -> Sid
        requires version { ver < (D.decides self.now.decider).versions }
        requires source { IsTrue ((D.decides self.now.decider).known s) }
        requires target { IsTrue ((D.decides self.now.decider).known t) }
        ensures { result ≡ (D.decides self.now.decider).label ver s t c }
    {
        self.decider.label(ver, s, t, c)
    }

    /// The member of a set of objects of a class that a source is led to, in a version.
    pub fn member(&self, ver: u8, s: Sid, t: Sid, c: Class) -> Sid
        requires version { ver < (D.decides self.now.decider).versions }
        requires source { IsTrue ((D.decides self.now.decider).known s) }
        requires target { IsTrue ((D.decides self.now.decider).known t) }
        ensures { result ≡ (D.decides self.now.decider).member ver s t c }
    {
        self.decider.member(ver, s, t, c)
    }

    /// Proposes a version under the next policy number, and answers that number. Refused, and all is as before: `Pending`
    /// exactly where a number is proposed and not complete; else `NoVersion` exactly where the decider has no such version;
    /// else `Spent` exactly where the settled number is the last. `Memory` never comes.
    pub fn propose(&mut self, ver: u16) -> Result<u32, NotifyFault>
        ensures answer { result ≡ Numbering.proposal (D.decides self.old.decider).versions self.old ver }
        ensures proposed { IfOk result (λ number. self.new ≡ Numbering.proposed self.old number ver) }
        ensures as_before { OnErr result (self.new ≡ self.old) }
    {
        let number = match self.phase {
            Phase::Pending { number, .. } => return Err(NotifyFault::Pending(number)),
            Phase::Settled { number, .. } => number,
        };
        if ver >= self.decider.versions() {
            return Err(NotifyFault::NoVersion);
        }
        if number == self.most {
            return Err(NotifyFault::Spent);
        }
        self.phase = Phase::Pending {
            number: number + 1,
            old: self.phase.version_at(number),
            new: ver as u8,
        };
        Ok(number + 1)
    }

    /// Takes the receipt of a manager for the pending number. Refused, and all is as before: `Foreign` exactly where that
    /// manager is not registered; else `Old` exactly where its number is not the pending one; else `Double` exactly where
    /// it is in.
    pub fn collect(&mut self, r: Receipt) -> Result<(), ReceiptFault>
        ensures refusals { IfErr result (λ fault. Numbering.receipt_fault self.old r ≡ Some fault) }
        ensures allowed { OnOk result (Numbering.receipt_fault self.old r ≡ None) }
        ensures taken { OnOk result (self.new ≡ Numbering.with_receipt self.old r.manager) }
        ensures as_before { OnErr result (self.new ≡ self.old) }
    {
        if r.manager >= self.managers {
            return Err(ReceiptFault::Foreign {
                manager: r.manager,
                registered: self.managers,
            });
        }
        let pending = self.pending_number();
        if pending != Some(r.number) {
            return Err(ReceiptFault::Old {
                number: r.number,
                pending,
            });
        }
        if self.received(r.manager) {
            return Err(ReceiptFault::Double {
                manager: r.manager,
                number: r.number,
            });
        }
        self.receipts[usize::from(r.manager)] = true;
        Ok(())
    }

    /// Whether a number is pending and one receipt of each manager is in. Then it is settled, and no receipt is kept; else
    /// nothing changes.
    pub fn complete(&mut self, n: u32) -> bool
        ensures answer { result ≡ Numbering.is_complete self.old n }
        ensures kept { self.new ≡ Numbering.completed self.old result }
    {
        let Phase::Pending { number, new, .. } = self.phase else {
            return false;
        };
        if number != n || !self.are_all_in() {
            return false;
        }
        self.phase = Phase::Settled {
            number,
            version: new,
        };
        self.receipts = [false; MANAGERS];
        true
    }

    /// The number that is proposed and not complete, with its version; `None` exactly where there is none.
    pub fn pending(&self) -> Option<(u32, u8)>
        ensures { result ≡ Numbering.pending_of self.now.phase }
    {
        match self.phase {
            Phase::Pending { number, new, .. } => Some((number, new)),
            Phase::Settled { .. } => None,
        }
    }

    /// Whether the receipt of a manager for the pending number is in. None is in where none is pending.
    pub fn received(&self, manager: u8) -> bool
        ensures receipt { result ≡ Numbering.is_in self.now.receipts manager }
        ensures none { is_pending self.now.phase ≡ false → result ≡ false }
    {
        self.receipts
            .as_slice()
            .get(usize::from(manager))
            .copied()
            .unwrap_or(false)
    }

    fn pending_number(&self) -> Option<u32>
        ensures { result ≡ Numbering.pending_number self.now.phase }
    {
        match self.phase {
            Phase::Pending { number, .. } => Some(number),
            Phase::Settled { .. } => None,
        }
    }

    fn are_all_in(&self) -> bool
        ensures { result ≡ Numbering.are_all_in self.now }
    {
        let managers = usize::from(self.managers);
        self.receipts.iter().take(managers).all(|is_in| *is_in)
    }
}
