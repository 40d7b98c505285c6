//! The manager on one thread, as the administrator sees it.

use crate::managed::Managed;
use crate::plain::Plain;
use access_vectors::Decider;
use manager_history::{Ack, Core, NotifyFault};
use std::alloc::Global;
use std::sync::Wait;

/// A manager on one thread tells all but items, and no call waits.
impl<'d, C: Core, D: Decider> Managed for Plain<'d, C, D> {
    ghost use Rattle.std.specs.Prelude.{refl};
    ghost use Rattle.std.proofs.Common.{◌∙◌};
    ghost use Rattle.managed.specs.Administered.{seen_of, IsSameBesidesChange};

    ghost seen = { seen_of D.decides C.class C.pair_of C.state C.follows };

    ghost same = { IsSameBesidesChange C.opening C.state };

    fn notify<R: Wait>(&mut self, rt: &R, alloc: Global, ver: u8) -> Result<u32, NotifyFault> {
        Plain::notify(self, alloc, ver)
    }

    fn update<R: Wait>(&mut self, rt: &R, k: u64) -> u64 {
        Plain::update(self, k)
    }

    fn acknowledge<R: Wait>(&mut self, rt: &R) -> Ack {
        Plain::acknowledge(self)
    }

    fn force<R: Wait>(&mut self, rt: &R) -> Ack {
        Plain::force(self)
    }

    ghost reflexive = { λ a. record { opened = refl; decider = refl; manager = refl; most = refl; held = refl; state_is = refl } };

    ghost transitive = { λ a b c ab bc. record {
      opened = bc.opened ∙ ab.opened;
      decider = bc.decider ∙ ab.decider;
      manager = bc.manager ∙ ab.manager;
      most = bc.most ∙ ab.most;
      held = bc.held ∙ ab.held;
      state_is = bc.state_is ∙ ab.state_is;
    } };
}
