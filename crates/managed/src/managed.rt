//! What the administrator of a change asks of a manager.

ghost use Rattle.std.specs.Prelude.{false, true};
ghost use Rattle.managed.specs.Seen.{Seen, IsNotified, IsUpdated, IsAcknowledged};

use manager_history::{Ack, NotifyFault};
use std::alloc::Global;
use std::sync::Wait;

/// What a try of a change showed: the older passes that it waits for, and stale slots found and left.
#[derive(Clone, Copy, Debug, PartialEq, Eq)]
pub struct Shown {
    pub older: u64,
    pub found: u64,
    pub left: u64,
}

/// An entry of a manager's history, as the administrator sees it.
#[derive(Clone, Copy, Debug, PartialEq, Eq)]
pub enum Event {
    /// A caller's call under a policy number, done or aborted. `mark` is the caller's own number of it.
    Operation { caller: u8, mark: u32, number: u32 },
    Notice { number: u32, version: u8 },
    Acknowledgement { number: u32, forced: bool },
}

/// A manager whose policy is changed in three steps. A call may wait for the manager's turn.
pub trait Managed {
    /// What the administrator sees of it.
    ghost seen: { Self → Seen };

    /// Nothing but what the administrator's calls change differs between the two values.
    ghost same: { Self → Self → Type 0 };

    /// Begins a change to a version, under the next policy number, which it answers.
    fn notify<R: Wait>(&mut self, rt: &R, alloc: Global, ver: u8) -> Result<u32, NotifyFault>
        ensures notified { IsNotified ver (seen self.old) (seen self.new) result }
        ensures same { same self.old self.new };

    /// Lets the first `k` stale slots, or all where they are fewer, follow the pending number, and answers how many are
    /// left. It takes no memory.
    fn update<R: Wait>(&mut self, rt: &R, k: u64) -> u64
        ensures updated { IsUpdated k (seen self.old) (seen self.new) result }
        ensures same { same self.old self.new };

    /// Acknowledges the pending number, where no pass of the settled number is out and no slot is stale. It takes no memory.
    fn acknowledge<R: Wait>(&mut self, rt: &R) -> Ack
        ensures acknowledged { IsAcknowledged false (seen self.old) (seen self.new) result }
        ensures same { same self.old self.new };

    /// Acknowledges the pending number, where no slot is stale, whatever passes are out: from then on the calls of older ones
    /// are aborted. It takes no memory.
    fn force<R: Wait>(&mut self, rt: &R) -> Ack
        ensures forced { IsAcknowledged true (seen self.old) (seen self.new) result }
        ensures same { same self.old self.new };

    /// Each value is the same as itself.
    ghost reflexive: { (a : Self) → same a a };

    /// What is the same as the same is the same.
    ghost transitive: { (a b c : Self) → same a b → same b c → same a c };
}
