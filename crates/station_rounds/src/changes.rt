//! Changes of policy, in a thread beside the callers.

use crate::pace::Pace;
use managed::Managed;
use manager_history::Ack;
use std::alloc::Global;
use std::sync::Wait;
use thread_tasks::Task;

/// Changes to version 1 and back in turn, at a pace.
#[derive(Drop)]
pub struct Changes<'p> {
    pub pace: &'p Pace,
}

/// The administrator's place: the manager, how many changes it makes, and how many of them were settled.
#[derive(Drop)]
pub struct Place<M: Managed + Drop> {
    pub held: M,
    pub times: u32,
    pub settled: u32,
}

/// Lets slots follow and tries to acknowledge until the change is settled.
fn settle<M: Managed, R: Wait>(rt: &R, held: &mut M) -> bool
    ensures { M.same held.old held.new }
{
    'tries: for _ in rt.forever() {
        let _left = held.update(rt, 64);
        if let Ack::Done(_) = held.acknowledge(rt) {
            return true;
        }
    }
    false
}

/// The administrator makes its changes, one after another.
impl<'p, M: Managed + Drop> Task<Place<M>> for Changes<'p> {
    ghost may = { λ changes place. Unit {0} };

    ghost did = { λ changes was now. M.same was.held now.held };

    fn run<R: Wait>(&self, rt: &R, alloc: Global, own: &mut Place<M>) {
        'changes: for number in 0..own.times {
            self.pace.before_change(number);
            if own
                .held
                .notify(rt, alloc, u8::from(number % 2 == 0))
                .is_err()
            {
                return;
            }
            if settle(rt, &mut own.held) {
                own.settled = own.settled.saturating_add(1);
                self.pace.note_change();
            }
        }
    }
}
