//! A change over three fake managers, of which one wants memory at its first notice.

ghost use Rattle.std.specs.Prelude.{◌≡◌};

use crate::by_version::ByVersion;
use change_protocol::{AckAll, Coordinator, NotifyAllFault, Said};
use managed::Managed;
use manager_history::{Ack, NotifyFault, Receipt};
use security_server::Server;
use std::alloc::Global;
use std::sync::Wait;
use std::test::Fail;

/// How far a manager has come with its one change, to a version.
#[derive(Clone, Copy, Drop)]
enum Step {
    Before,
    Noticed(u8),
    Acknowledged { version: u8, forced: bool },
}

/// A manager of one change, with no slot and no pass. One that is short wants memory at its first notice.
#[derive(Drop)]
struct Single {
    manager: u8,
    step: Step,
    short: bool,
    tries: u64,
}

impl Managed for Single {
    ghost use Rattle.std.specs.Prelude.{refl, ◌≡◌, None};
    ghost use Rattle.std.proofs.Common.{◌∙◌};
    ghost use Rattle.std.specs.Prelude.{[], ◌∷◌};
    ghost use Rattle.access_vectors.specs.declared.phase.Phase.TheVariants.{Settled, Pending};
    ghost use Rattle.managed.specs.declared.managed.Event.TheVariants.{Notice, Acknowledgement};
    ghost use Rattle.protocol_tests.specs.declared.changes.Step.TheVariants.{Before, Noticed, Acknowledged};

    ghost seen = { λ single. record {
      manager = single.manager;
      phase = elim single.step [ Before ↦ Settled 0 0 | Noticed version ↦ Pending 1 0 version | Acknowledged version forced ↦ Settled 1 version ];
      history = elim single.step [
        | Before ↦ []
        | Noticed version ↦ Notice 1 version ∷ []
        | Acknowledged version forced ↦ Notice 1 version ∷ Acknowledgement 1 forced ∷ []
      ];
      most = 9;
      versions = 2;
      tries = single.tries;
      shown = record { older = 0; found = 0; left = 0 };
      older = None;
      follows = None;
      stale = None;
      items = None;
    } };

    ghost same = { λ old new. new.manager ≡ old.manager };

    fn notify<R: Wait>(&mut self, rt: &R, alloc: Global, ver: u8) -> Result<u32, NotifyFault> {
        if let Step::Noticed(_version) = self.step {
            return Err(NotifyFault::Pending(1));
        }
        if ver >= 2 {
            return Err(NotifyFault::NoVersion);
        }
        let Step::Before = self.step else {
            return Err(NotifyFault::Memory);
        };
        if self.short {
            self.short = false;
            return Err(NotifyFault::Memory);
        }
        self.step = Step::Noticed(ver);
        Ok(1)
    }

    fn update<R: Wait>(&mut self, rt: &R, k: u64) -> u64 {
        self.tries = self.tries.saturating_add(1);
        0
    }

    fn acknowledge<R: Wait>(&mut self, rt: &R) -> Ack {
        let Step::Noticed(version) = self.step else {
            return Ack::Idle;
        };
        self.tries = self.tries.saturating_add(1);
        self.step = Step::Acknowledged {
            version,
            forced: false,
        };
        Ack::Done(Receipt {
            manager: self.manager,
            number: 1,
        })
    }

    fn force<R: Wait>(&mut self, rt: &R) -> Ack {
        let Step::Noticed(version) = self.step else {
            return Ack::Idle;
        };
        self.tries = self.tries.saturating_add(1);
        self.step = Step::Acknowledged {
            version,
            forced: true,
        };
        Ack::Done(Receipt {
            manager: self.manager,
            number: 1,
        })
    }

    ghost reflexive = { λ a. refl };

    ghost transitive = { λ a b c ab bc. bc ∙ ab };
}

/// A manager before its change.
fn before_change(manager: u8, short: bool) -> Single
    ensures { result ≡ record { manager = manager; step = Step.Before; short = short; tries = 0 } }
{
    Single {
        manager,
        step: Step::Before,
        short,
        tries: 0,
    }
}

/// One change from end to end. The second manager wants memory at first: the same version goes on from there.
#[test]
fn a_change_goes_on_and_is_complete(rt: HostRuntime) -> Result<(), Fail> {
    let alloc = rt.alloc();
    let decider = ByVersion;
    let server = Server::new(&decider, 3, 9);
    let managers = vec![in alloc;
        before_change(0, false),
        before_change(1, true),
        before_change(2, false),
    ]?;
    let mut all = Coordinator::new(server, managers, 0);
    let mut said = [Said::Kept; 3];
    assert_eq!(rt; all.ack_all(&rt, &mut said), AckAll::Idle);
    assert_eq!(rt;
        all.notify_all(&rt, alloc, 2),
        Err(NotifyAllFault::NoVersion)
    );
    assert_eq!(rt;
        all.notify_all(&rt, alloc, 1),
        Err(NotifyAllFault::Memory { reached: 1 })
    );
    assert_eq!(rt; all.ack_all(&rt, &mut said), AckAll::Waiting);
    assert_eq!(rt; said, [Said::Kept, Said::Idle, Said::Idle]);
    assert_eq!(rt;
        all.notify_all(&rt, alloc, 0),
        Err(NotifyAllFault::Pending(1))
    );
    assert_eq!(rt; all.notify_all(&rt, alloc, 1), Ok(1));
    assert_eq!(rt;
        all.notify_all(&rt, alloc, 1),
        Err(NotifyAllFault::Pending(1))
    );
    let mut left = [9; 3];
    all.update_all(&rt, 5, &mut left);
    assert_eq!(rt; left, [0, 0, 0]);
    assert_eq!(rt; all.ack_all(&rt, &mut said), AckAll::Complete(1));
    assert_eq!(rt; said, [Said::Kept, Said::Kept, Said::Kept]);
    assert_eq!(rt; all.ack_all(&rt, &mut said), AckAll::Idle);
    let (server, _managers, reached) = all.release();
    assert_eq!(rt; server.pending(), None);
    assert_eq!(rt; reached, 3);
    Ok(())
}

/// A change of which the first receipt came by force, and the others without.
#[test]
fn a_change_is_complete_with_a_forced_receipt(rt: HostRuntime) -> Result<(), Fail> {
    let alloc = rt.alloc();
    let decider = ByVersion;
    let server = Server::new(&decider, 3, 9);
    let managers = vec![in alloc;
        before_change(0, false),
        before_change(1, true),
        before_change(2, false),
    ]?;
    let mut all = Coordinator::new(server, managers, 0);
    let mut said = [Said::Kept; 3];
    assert_eq!(rt; all.force_all(&rt, &mut said), AckAll::Idle);
    assert_eq!(rt;
        all.notify_all(&rt, alloc, 1),
        Err(NotifyAllFault::Memory { reached: 1 })
    );
    assert_eq!(rt; all.force_all(&rt, &mut said), AckAll::Waiting);
    assert_eq!(rt; said, [Said::Kept, Said::Idle, Said::Idle]);
    assert_eq!(rt; all.notify_all(&rt, alloc, 1), Ok(1));
    assert_eq!(rt; all.ack_all(&rt, &mut said), AckAll::Complete(1));
    assert_eq!(rt; said, [Said::Kept, Said::Kept, Said::Kept]);
    Ok(())
}
