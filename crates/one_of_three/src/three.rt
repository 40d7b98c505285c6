//! The type, and the three managers again.

ghost use Rattle.std.specs.Prelude.{◌≡◌, [], ◌∷◌, Some};
ghost use Rattle.one_of_three.specs.declared.three.OneOfThree.TheVariants as one;

use managed::Managed;
use manager_history::{Ack, NotifyFault};
use std::alloc::Global;
use std::sync::Wait;

/// The manager of files, of processes or of ports.
#[derive(Drop)]
pub enum OneOfThree<A, B, C> {
    Files(A),
    Processes(B),
    Ports(C),
}

/// Each call is the manager's own.
impl<A: Managed, B: Managed, C: Managed> Managed for OneOfThree<A, B, C> {
    ghost use Rattle.one_of_three.specs.Three.{seen_by, AreSame, same_reflexive, same_transitive};

    ghost seen = { seen_by A.seen B.seen C.seen };

    ghost same = { AreSame A.same B.same C.same };

    fn notify<R: Wait>(&mut self, rt: &R, alloc: Global, ver: u8) -> Result<u32, NotifyFault> {
        match self {
            OneOfThree::Files(files) => files.notify(rt, alloc, ver),
            OneOfThree::Processes(processes) => processes.notify(rt, alloc, ver),
            OneOfThree::Ports(ports) => ports.notify(rt, alloc, ver),
        }
    }

    fn update<R: Wait>(&mut self, rt: &R, k: u64) -> u64 {
        match self {
            OneOfThree::Files(files) => files.update(rt, k),
            OneOfThree::Processes(processes) => processes.update(rt, k),
            OneOfThree::Ports(ports) => ports.update(rt, k),
        }
    }

    fn acknowledge<R: Wait>(&mut self, rt: &R) -> Ack {
        match self {
            OneOfThree::Files(files) => files.acknowledge(rt),
            OneOfThree::Processes(processes) => processes.acknowledge(rt),
            OneOfThree::Ports(ports) => ports.acknowledge(rt),
        }
    }

    fn force<R: Wait>(&mut self, rt: &R) -> Ack {
        match self {
            OneOfThree::Files(files) => files.force(rt),
            OneOfThree::Processes(processes) => processes.force(rt),
            OneOfThree::Ports(ports) => ports.force(rt),
        }
    }

    ghost reflexive = { same_reflexive A.same B.same C.same A.reflexive B.reflexive C.reflexive };

    ghost transitive = { same_transitive A.same B.same C.same A.transitive B.transitive C.transitive };
}

/// The three managers, where they stand in the order files, processes, ports.
pub fn three_of<A: Drop, B: Drop, C: Drop>(managers: Vec<OneOfThree<A, B, C>>) -> Option<(A, B, C)>
    ensures { (a : A) (b : B) (c : C) → managers.items ≡ one.Files a ∷ one.Processes b ∷ one.Ports c ∷ [] → result ≡ Some (a, b, c) }
{
    let mut each = managers.into_iter();
    let Some(OneOfThree::Files(files)) = each.next() else {
        return None;
    };
    let Some(OneOfThree::Processes(processes)) = each.next() else {
        return None;
    };
    let Some(OneOfThree::Ports(ports)) = each.next() else {
        return None;
    };
    Some((files, processes, ports))
}
