//! A list of lines, as the value of a gate.

ghost use Rattle.std.specs.Prelude.{◌≡◌, ◌+◌, ◌<◌, ◌≤◌, [], ◌∷◌, ◌++◌, None, IfOk, IfErr, OnOk, MatchResult};
ghost use Rattle.gate_rule.specs.History.{settled, noticed, settled_in, last_notice, Alternates};
ghost use Rattle.gate_ledger.specs.Lines.{kind_of};
ghost use Rattle.access_vectors.specs.Notices.{notice_fault, IsRefusal};
ghost use Rattle.gate_ledger.specs.Changes.{phase_after};

use access_vectors::{Decider, NotifyFault};
use gate_rule::Journal;
use std::alloc::Global;
use std::snapshot::Snapshot;

/// An entry of a ledger's history.
#[derive(Clone, Copy, Debug, PartialEq, Eq)]
pub enum Line {
    /// A call: its caller, the caller's own mark and the policy number of its pass.
    Op(u8, u32, u32),
    /// The notice of a policy number and its version.
    Noticed(u32, u8),
    /// The acknowledgement of a policy number.
    Settled(u32),
}

/// A list of lines, with the last acknowledged and the last noticed policy number.
#[derive(Drop)]
pub struct Ledger<D: Decider> {
    pub lines: Vec<Line>,
    pub settled: u32,
    pub newest: u32,
    pub decider: Snapshot<D>,
    pub ghost settled_is: { settled ≡ settled_in kind_of lines.items },
    pub ghost newest_is: { newest ≡ (last_notice kind_of lines.items).0 },
}

impl<D: Decider> Journal<D> for Ledger<D> {
    ghost use Rattle.std.specs.Prelude.{[], None};
    ghost use Rattle.access_vectors.specs.declared.class.Class.TheVariants.{File};
    ghost use Rattle.access_vectors.specs.NoSlots.{no_follows, none_are_stale, none_named};
    ghost use Rattle.gate_rule.specs.History.{Alternates, phase_in};
    ghost use Rattle.gate_ledger.specs.Lines.{kind_of};

    type Entry = Line;

    type Opening = ();

    ghost means = { record {
      history = λ ledger. ledger.lines.items;
      kind = kind_of;
      opening = λ ledger. tt;
      decider = λ ledger. ledger.decider.value;
      promise = λ opening decider log. Alternates kind_of (D.decides decider).versions 0 0 log;
      keeps = λ ledger. Unit {0};
      class = File;
      pair_of = λ ledger place. None;
      follows = λ ledger. no_follows;
      stale = λ ledger. [];
    } };

    ghost alternates = { λ opening decider log promised. promised };

    ghost are_named = { λ ledger kept. none_named (phase_in kind_of ledger.lines.items) };

    ghost are_stale = { λ ledger kept. none_are_stale (D.decides ledger.decider.value) File (phase_in kind_of ledger.lines.items) (λ place. None) };
}

impl<D: Decider> Ledger<D> {
    /// The empty ledger of a decider.
    pub fn new(alloc: Global, decider: &D) -> Self
        ensures lines { result.lines.items ≡ [] }
        ensures decider { result.decider.value ≡ decider.now }
    {
        empty_ledger(Vec::new(alloc), Snapshot::of(decider))
    }

    /// The ledger with one line more; where there is no memory, as it was.
    pub fn with_line(self, line: Line) -> Result<Self, Self>
        ensures ok { MatchResult result (λ ledger. ledger.lines.items ≡ self.lines.items ++ line ∷ []) (λ ledger. ledger.lines.items ≡ self.lines.items) }
        ensures decider { MatchResult result (λ ledger. ledger.decider.value ≡ self.decider.value) (λ ledger. ledger.decider.value ≡ self.decider.value) }
    {
        let Ledger {
            mut lines,
            settled,
            newest,
            decider,
        } = self;
        match lines.push(line) {
            Ok(()) => Ok(Ledger {
                lines,
                settled: settled_after(settled, line),
                newest: newest_after(newest, line),
                decider,
            }),
            Err(_) => Err(Ledger {
                lines,
                settled,
                newest,
                decider,
            }),
        }
    }

    /// The ledger with the notice of the next number and this version; where that may not come or there is no memory,
    /// as it was, with the fault.
    pub fn with_notice(self, versions: u16, ver: u8, most: u32) -> Result<Self, (Self, NotifyFault)>
        requires lawful { Alternates kind_of versions 0 0 self.lines.items }
        requires within { (last_notice kind_of self.lines.items).0 ≤ most }
        ensures ok { IfOk result (λ ledger. ledger.lines.items ≡ self.lines.items ++ Line.Noticed ledger.newest ver ∷ []) }
        ensures next { IfOk result (λ ledger. ledger.newest ≡ (last_notice kind_of self.lines.items).0 + 1) }
        ensures allowed { OnOk result (notice_fault (phase_after self.lines.items) versions ver most ≡ None) }
        ensures lawful { IfOk result (λ ledger. Alternates kind_of versions 0 0 ledger.lines.items) }
        ensures settled { OnOk result (settled_in kind_of self.lines.items ≡ (last_notice kind_of self.lines.items).0) }
        ensures below { OnOk result (((last_notice kind_of self.lines.items).0 < most) × (ver < versions)) }
        ensures err { IfErr result (λ refused. (refused.0.lines.items ≡ self.lines.items) × IsRefusal (notice_fault (phase_after self.lines.items) versions ver most) refused.1) }
        ensures decider { MatchResult result (λ ledger. ledger.decider.value ≡ self.decider.value) (λ refused. refused.0.decider.value ≡ self.decider.value) }
    {
        let newest = self.newest;
        if self.settled != newest {
            return Err((self, NotifyFault::Pending(newest)));
        }
        if u16::from(ver) >= versions {
            return Err((self, NotifyFault::NoVersion));
        }
        if newest == most {
            return Err((self, NotifyFault::Spent));
        }
        match self.with_line(Line::Noticed(newest + 1, ver)) {
            Ok(ledger) => Ok(ledger),
            Err(ledger) => Err((ledger, NotifyFault::Memory)),
        }
    }
}

fn empty_ledger<D: Decider>(lines: Vec<Line>, decider: Snapshot<D>) -> Ledger<D>
    requires { lines.items ≡ [] }
    ensures lines { result.lines.items ≡ [] }
    ensures decider { result.decider.value ≡ decider.value }
{
    Ledger {
        lines,
        settled: 0,
        newest: 0,
        decider,
    }
}

fn settled_after(number: u32, line: Line) -> u32
    ensures { result ≡ settled number (kind_of line) }
{
    match line {
        Line::Op(..) | Line::Noticed(..) => number,
        Line::Settled(acknowledged) => acknowledged,
    }
}

fn newest_after(number: u32, line: Line) -> u32
    ensures { result ≡ (noticed (number, 0) (kind_of line)).0 }
{
    match line {
        Line::Op(..) | Line::Settled(..) => number,
        Line::Noticed(next, _) => next,
    }
}
