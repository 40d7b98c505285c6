//! The asker without a cache.

ghost use Rattle.std.specs.Prelude.{◌≡◌, ◌<◌};

use crate::asker::Asker;
use crate::class::Class;
use crate::decider::Decider;
use crate::vector::Vector;
use flask_sid::Sid;

/// The asker without a cache: each question goes to the decider. `count` is how many were put.
#[derive(Drop)]
pub struct Plainly<'a, D: Decider> {
    pub decider: &'a D,
    pub ver: u8,
    pub count: u64,
    pub ghost below: { ver < (D.decides decider.now).versions },
}

impl<'a, D: Decider> Plainly<'a, D> {
    ghost use Rattle.std.specs.Prelude.{◌≡◌, ◌<◌};

    /// The asker of a decider at one of its versions, of which nothing was asked yet.
    pub fn new(decider: &'a D, ver: u8) -> Self
        requires { ver < (D.decides decider.now).versions }
        ensures decider { result.decider.now ≡ decider.now }
        ensures version { result.ver ≡ ver }
        ensures count { result.count ≡ 0 }
    {
        Plainly {
            decider,
            ver,
            count: 0,
        }
    }
}

impl<'a, D: Decider> Asker for Plainly<'a, D> {
    ghost use Rattle.std.specs.Prelude.{ℕ, List, Option, None, refl, ◌≡◌};
    ghost use Rattle.std.proofs.Common.{◌∙◌, ap};
    ghost use Rattle.access_vectors.specs.Asking.{Alike};

    ghost decides = { λ plainly. D.decides plainly.decider.now };

    ghost version = { λ plainly. plainly.ver };

    ghost asks = { λ plainly. plainly.count };

    ghost keys = { λ plainly. None };

    ghost same = { λ a b. (b.decider.now ≡ a.decider.now) × (b.ver ≡ a.ver) };

    fn version(&self) -> u8 {
        self.ver
    }

    fn asks(&self) -> u64 {
        self.count
    }

    fn vector(&mut self, s: Sid, t: Sid, c: Class) -> Vector {
        self.count = self.count.saturating_add(1);
        self.decider.vector(self.ver, s, t, c)
    }

    fn label(&mut self, s: Sid, t: Sid, c: Class) -> Sid {
        self.count = self.count.saturating_add(1);
        self.decider.label(self.ver, s, t, c)
    }

    fn member(&mut self, s: Sid, t: Sid, c: Class) -> Sid {
        self.count = self.count.saturating_add(1);
        self.decider.member(self.ver, s, t, c)
    }

    fn vector_at(&mut self, ver: u8, s: Sid, t: Sid, c: Class) -> Vector {
        self.count = self.count.saturating_add(1);
        self.decider.vector(ver, s, t, c)
    }

    ghost reflexive = { λ a. (refl, refl) };

    ghost transitive = { λ a b c ab bc. (bc.0 ∙ ab.0, bc.1 ∙ ab.1) };

    ghost alike = { λ a b ab. record { decider = ap D.decides ab.0; at = ab.1 } };

    ghost below = { λ a. a.below };

    ghost closed = { λ a. D.closed a.decider.now };
}
