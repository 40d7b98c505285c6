//! A task at each of many values, and another beside them.

ghost use Rattle.std.specs.Prelude.{All};
ghost use Rattle.std.specs.List.{AllZip};

use crate::each::{Task, run_each};
use std::alloc::Global;
use std::sync::Wait;
use std::thread;
use std::thread::Threads;

/// Values, and the task that is done to each.
pub struct Crew<'w, T, W> {
    pub task: &'w W,
    pub each: Vec<T>,
}

/// As `run_each`, and gives the values back.
fn run_crew<R: Threads + Wait + Sync, T: Send, W: Task<T> + Sync>(
    rt: &R,
    alloc: Global,
    task: &W,
    each: Vec<T>,
) -> Vec<T>
    requires { All (W.may task.now) each.items }
    ensures { AllZip (W.did task.now) each.items result.items }
{
    let mut each = each;
    run_each(rt, alloc, task, each.as_mut_slice());
    each
}

/// Does a task to one value, and gives it back.
fn run_one<R: Wait, T, W: Task<T>>(rt: &R, alloc: Global, task: &W, own: T) -> T
    requires { W.may task.now own }
    ensures { W.did task.now own result }
{
    let mut own = own;
    task.run(rt, alloc, &mut own);
    own
}

/// Does a crew's task to each of its values, as `run_each` does, and beside them another task to a value of its own.
pub fn run_beside<
    R: Threads + Wait + Sync,
    T: Send + Drop,
    W: Task<T> + Sync,
    U: Send + Drop,
    X: Task<U> + Sync,
>(rt: &R, alloc: Global, crew: Crew<'_, T, W>, task: &X, own: U) -> (Vec<T>, U)
    requires each { All (W.may crew.task.now) crew.each.items }
    requires own { X.may task.now own }
    ensures each { AllZip (W.did crew.entry.task.now) crew.entry.each.items result.0.items }
    ensures own { X.did task.now own result.1 }
{
    let Crew {
        task: of_each,
        each,
    } = crew;
    thread::join(
        rt,
        move || -> Vec<T>
            requires { All (W.may of_each.now) each.items }
            ensures { AllZip (W.did of_each.entry.now) each.items result.items }
        { run_crew(rt, alloc, of_each, each) },
        move || -> U
            requires { X.may task.now own }
            ensures { X.did task.entry.now own result }
        { run_one(rt, alloc, task, own) },
    )
}
