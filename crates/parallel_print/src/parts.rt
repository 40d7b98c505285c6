//! A list in parts, each with the text of its items.

ghost use Rattle.std.specs.Prelude.{◌≡◌, IfOk};
ghost use Rattle.std.specs.List.{All, AllZip, flat_map};
ghost use Rattle.parallel_print.specs.Parts.{HasText, IsWorded, items_of};

use crate::wording::{Wording, text_of};
use flask_sid::{Memory, Text};
use std::alloc::Global;
use std::sync::Wait;
use std::thread::Threads;
use thread_tasks::{Task, run_each};

/// Items are put together in so many parts at most, as equal as can be.
const PARTS: usize = 4;

/// Items one behind another, and their text. It is `Memory` where the text could not be put together, or is not yet.
#[derive(Drop)]
pub(crate) struct Part<'a, T> {
    pub(crate) items: &'a [T],
    pub(crate) text: Result<Text, Memory>,
}

/// Puts the text of a part together.
#[derive(Clone, Copy)]
struct Worker<'w, W> {
    wording: &'w W,
}

impl<'a, 'w, T, W: Wording<T>> Task<Part<'a, T>> for Worker<'w, W> {
    ghost use Rattle.parallel_print.specs.Parts.{IsWorded};

    ghost may = { λ worker part. Unit {0} };

    ghost did = { λ worker before after. IsWorded (W.text worker.wording.now) before after };

    fn run<R: Wait>(&self, _: &R, alloc: Global, own: &mut Part<'a, T>) {
        own.text = text_of(alloc, self.wording, own.items);
    }
}

/// A list in parts as equal as can be, none of which has its text yet.
fn parts_of<'a, T>(alloc: Global, items: &'a [T]) -> Result<Vec<Part<'a, T>>, Memory>
    ensures { IfOk result (λ parts. flat_map items_of parts.items ≡ items.now) }
{
    let most = items.len().div_ceil(PARTS).max(1);
    let mut parts = Vec::new(alloc);
    let mut rest = items;
    'parts: while !rest.is_empty() {
        let (items, behind) = rest.split_at(rest.len().min(most));
        parts.push(Part {
            items,
            text: Err(Memory),
        })?;
        rest = behind;
    }
    Ok(parts)
}

/// Each part with its text. They are put together in threads, where these can be started.
fn worded<'a, R: Threads + Wait + Sync, T: Sync, W: Wording<T> + Sync>(
    rt: &R,
    alloc: Global,
    wording: &W,
    parts: Vec<Part<'a, T>>,
) -> Vec<Part<'a, T>>
    ensures { AllZip (IsWorded (W.text wording.now)) parts.entry.items result.items }
{
    let mut parts = parts;
    run_each(rt, alloc, &Worker { wording }, parts.as_mut_slice());
    parts
}

/// A list in parts, each of which has its text, but for those that found no memory for it.
pub(crate) fn worded_parts<'a, R: Threads + Wait + Sync, T: Sync, W: Wording<T> + Sync>(
    rt: &R,
    alloc: Global,
    wording: &W,
    items: &'a [T],
) -> Result<Vec<Part<'a, T>>, Memory>
    ensures items { IfOk result (λ parts. flat_map items_of parts.items ≡ items.now) }
    ensures texts { IfOk result (λ parts. All (HasText (W.text wording.now)) parts.items) }
{
    let parts = parts_of(alloc, items)?;
    Ok(worded(rt, alloc, wording, parts))
}
