//! A task at each of many values.

ghost use Rattle.std.specs.Prelude.{All};
ghost use Rattle.std.specs.List.{AllZip};

use std::alloc::Global;
use std::sync::Wait;
use std::thread;
use std::thread::Threads;

/// What a thread does to a value of its own. What all threads share is in `self`.
pub trait Task<T> {
    /// It may be done to the value.
    ghost may: { Self → T → Type 0 };

    /// The value before and after it was done.
    ghost did: { Self → T → T → Type 0 };

    /// Does it to the value.
    fn run<R: Wait>(&self, rt: &R, alloc: Global, own: &mut T)
        requires { may self.now own.old }
        ensures { did self.now own.old own.new };
}

/// Does a task to each value, each in a thread of its own where one can be started, and joins them all.
pub fn run_each<R: Threads + Wait + Sync, T: Send, W: Task<T> + Sync>(
    rt: &R,
    alloc: Global,
    task: &W,
    each: &mut [T],
)
    requires { All (W.may task.now) each.old }
    ensures { AllZip (W.did task.now) each.old each.new }
{
    let count = each.len().max(1);
    thread::for_each_mut(rt, each, count, &|_, own: &mut T| task.run(rt, alloc, own));
}
