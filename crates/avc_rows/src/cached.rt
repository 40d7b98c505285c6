//! The asker of a gate's cache, for a seat with a pass.

ghost use Rattle.std.specs.Prelude.{◌≡◌};
ghost use Rattle.gate_rule.specs.declared.view.Pass.TheVariants.{Inside};
ghost use Rattle.epoch_gate.specs.Seats.{IsOfGate};
ghost use Rattle.epoch_gate.specs.Known.{decider_of, pass_held};

use crate::rows::check;
use access_vectors::{Asker, Class, Decider, Plainly, Vector};
use epoch_gate::{Gate, Seat};
use flask_sid::Sid;
use gate_rule::Journal;

/// The asker of a gate's cache, for a seat with a pass: it asks at the version of that pass. What is not cached it
/// asks plainly, and it keeps its count of questions there. Its end is that it is taken apart: the seat is then its
/// borrower's again.
pub struct Cached<'a, 'd, V: Journal<D>, D: Decider> {
    pub gate: &'a Gate<'d, V, D>,
    pub seat: &'a mut Seat<V, D>,
    pub number: u32,
    pub plainly: Plainly<'a, D>,
    ghost ready: { IsOfGate gate.now seat.now × (pass_held seat.now ≡ Inside number plainly.ver) × (plainly.decider.now ≡ decider_of gate.now) },
}

impl<'a, 'd, V: Journal<D>, D: Decider> Cached<'a, 'd, V, D> {
    ghost use Rattle.std.specs.Prelude.{◌≡◌};
    ghost use Rattle.epoch_gate.specs.Seats.{IsOfGate};
    ghost use Rattle.epoch_gate.specs.Known.{decider_of, HasPass, pass_version};

    /// The asker of a seat with a pass, of which nothing was asked yet.
    #[inline(always)]
    pub fn new(gate: &'a Gate<'d, V, D>, seat: &'a mut Seat<V, D>) -> Self
        requires gate { IsOfGate gate.now seat.old }
        requires pass { HasPass seat.old }
        ensures gate { result.gate.now ≡ gate.entry.now }
        ensures seat { (result.seat.ghost_name ≡ seat.entry.ghost_name) × (result.seat.now ≡ seat.entry.now) }
        ensures decider { result.plainly.decider.now ≡ decider_of gate.entry.now }
        ensures version { result.plainly.ver ≡ pass_version seat.entry.now }
        ensures asks { result.plainly.count ≡ 0 }
    {
        let Some((number, version)) = seat.pass() else {
            unreachable!()
        };
        let plainly = Plainly::new(gate.decider(), version);
        Cached {
            gate,
            seat,
            number,
            plainly,
        }
    }
}

impl<'a, 'd, V: Journal<D>, D: Decider> Asker for Cached<'a, 'd, V, D> {
    ghost use Rattle.std.specs.Prelude.{◌≡◌, map, Some, refl};
    ghost use Rattle.std.proofs.Common.{◌∙◌, ap};
    ghost use Rattle.epoch_gate.specs.Known.{keys_served};
    ghost use Rattle.avc_rows.specs.Checks.{IsSame, IsSame-transitive, as_asked};

    ghost decides = { λ c. D.decides c.plainly.decider.now };

    ghost version = { λ c. c.plainly.ver };

    ghost asks = { λ c. c.plainly.count };

    ghost keys = { λ c. Some (map as_asked (keys_served c.seat.now)) };

    ghost same = { λ c d. (d.seat.ghost_name ≡ c.seat.ghost_name) × (d.gate.now ≡ c.gate.now) × (d.plainly.decider.now ≡ c.plainly.decider.now) × (d.plainly.ver ≡ c.plainly.ver) × IsSame c.seat.now d.seat.now };

    #[inline(always)]
    fn version(&self) -> u8 {
        self.plainly.version()
    }

    #[inline(always)]
    fn asks(&self) -> u64 {
        self.plainly.asks()
    }

    #[inline(always)]
    fn vector(&mut self, s: Sid, t: Sid, c: Class) -> Vector {
        self.plainly.count = self.plainly.count.saturating_add(1);
        check(self.gate, self.seat, s, t, c).vector
    }

    #[inline(always)]
    fn label(&mut self, s: Sid, t: Sid, c: Class) -> Sid {
        self.plainly.label(s, t, c)
    }

    #[inline(always)]
    fn member(&mut self, s: Sid, t: Sid, c: Class) -> Sid {
        self.plainly.member(s, t, c)
    }

    #[inline(always)]
    fn vector_at(&mut self, ver: u8, s: Sid, t: Sid, c: Class) -> Vector {
        self.plainly.vector_at(ver, s, t, c)
    }

    ghost reflexive = { λ a. (refl, refl, refl, refl, (refl, refl)) };

    ghost transitive = { λ a b c ab bc. (bc.0 ∙ ab.0, bc.1 ∙ ab.1, bc.2 ∙ ab.2, bc.3 ∙ ab.3, IsSame-transitive a.seat.now b.seat.now c.seat.now ab.4 bc.4) };

    ghost alike = { λ a b ab. record { decider = ap D.decides ab.2; at = ab.3 } };

    ghost below = { λ a. a.plainly.below };

    ghost closed = { λ a. D.closed a.plainly.decider.now };
}
