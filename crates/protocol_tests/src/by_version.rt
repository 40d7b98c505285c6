//! A decider of two versions.

use access_vectors::{Class, Decider, Vector};
use flask_sid::Sid;

/// A decider of two versions: in version 0 nobody may do anything, in version 1 everybody may read.
#[derive(Drop)]
pub struct ByVersion;

impl Decider for ByVersion {
    ghost use Rattle.std.specs.Prelude.{◌≡◌, ℕ, ◌<◌, ◌&&◌, nat_lt, IsTrue};
    ghost use Rattle.std.proofs.Common.{rules, arith};
    ghost use Rattle.std.proofs.lemmas.Bool.Decides.{nat_tests};

    ghost decides = { λ decider. record {
      versions = 2;
      known = λ s. nat_lt 0 s && nat_lt s 4096;
      vector = λ version s t class. version;
      label = λ version s t class. t;
      member = λ version s t class. s;
    } };

    fn versions(&self) -> u16 {
        2
    }

    fn vector(&self, ver: u8, _s: Sid, _t: Sid, _c: Class) -> Vector {
        Vector::of(u16::from(ver))
    }

    fn label(&self, _ver: u8, _s: Sid, t: Sid, _c: Class) -> Sid {
        t
    }

    fn member(&self, _ver: u8, s: Sid, _t: Sid, _c: Class) -> Sid {
        s
    }

    ghost closed = { λ decider. record {
      some_version = Prim.omega arith;
      few_versions = Prim.omega arith;
      sids = λ s known. Prim.grind (arith, nat_tests);
      vectors = λ version s t class below source target. Prim.omega arith;
      labels = λ version s t class below source target. target;
      members = λ version s t class below source target. source;
    } };
}
