//! The pace at which callers and changes go on beside each other.

use std::hint::spin_loop;
use std::sync::atomic::{AtomicBool, AtomicU64, Ordering};

/// How often a thread looks before it gives up the pace.
const LOOKS: u32 = 10_000_000;

/// So many calls of each of two callers go beside each change: a caller goes on once its change is settled, and the next change begins once
/// both have made theirs. Where a thread waits in vain, as where no thread can be started, the pace is given up, and all go on at once.
#[derive(Drop)]
pub struct Pace {
    step: u32,
    calls: AtomicU64,
    changes: AtomicU64,
    given_up: AtomicBool,
}

impl Pace {
    /// The pace of so many calls; with 0 nobody waits.
    pub fn of(step: u32) -> Pace {
        Pace {
            step,
            calls: AtomicU64::new(0),
            changes: AtomicU64::new(0),
            given_up: AtomicBool::new(step == 0),
        }
    }

    /// Whether nobody gave it up.
    pub fn was_kept(&self) -> bool {
        !self.given_up.load(Ordering::SeqCst)
    }

    /// Waits until a count has come so far.
    fn wait(&self, count: &AtomicU64, wanted: u64) {
        for _ in 0..LOOKS {
            if count.load(Ordering::SeqCst) >= wanted || !self.was_kept() {
                return;
            }
            spin_loop();
        }
        self.given_up.store(true, Ordering::SeqCst);
    }

    /// Waits before a caller's call of this mark.
    pub fn before_call(&self, mark: u32) {
        let changes = mark.checked_div(self.step).unwrap_or(0);
        self.wait(&self.changes, u64::from(changes));
    }

    /// Waits before the change behind so many.
    pub fn before_change(&self, changes: u32) {
        let calls = u64::from(changes).wrapping_mul(u64::from(self.step));
        self.wait(&self.calls, calls.wrapping_mul(2));
    }

    /// A call was made.
    pub fn note_call(&self) {
        self.calls.fetch_add(1, Ordering::SeqCst);
    }

    /// A change was settled.
    pub fn note_change(&self) {
        self.changes.fetch_add(1, Ordering::SeqCst);
    }
}
