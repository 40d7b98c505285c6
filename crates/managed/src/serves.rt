//! What clients do at a manager between the administrator's calls.

ghost use Rattle.managed.specs.Seen.{IsServed};

use crate::managed::Managed;
use std::alloc::Global;

/// A manager on one thread, at which clients act between the administrator's calls.
pub trait Serves: Managed {
    /// What a client does.
    type Act;

    /// What comes of it.
    type Outcome;

    /// An act may be done at a manager.
    ghost may: { Self → Self.Act → Type 0 };

    /// What an act does to a manager, from before to after, and what comes of it.
    ghost does: { Self → Self → Self.Act → Self.Outcome → Type 0 };

    /// Does a client's act. Of what the administrator sees, the history alone may grow, and that by callers' operations.
    fn serve(&mut self, alloc: Global, act: Self::Act) -> Self::Outcome
        requires { may self.old act }
        ensures does { does self.old self.new act result }
        ensures served { IsServed (Self.seen self.old) (Self.seen self.new) };
}
