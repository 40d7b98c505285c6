//! A list, written round by round: the texts of a round's items are put together in threads, and then written in order.

ghost use Rattle.std.specs.Prelude.{Err, OnOk, OnErr, ◌≡◌};
ghost use Rattle.std.specs.List.{flat_map};
ghost use Rattle.flask_io.specs.Streams.{Adds, HasCause};
ghost use Rattle.run_output.specs.Writing.{AddsFront};
ghost use Rattle.run_output.specs.declared.stop.RunStop.{RunStop};

use crate::parts::worded_parts;
use crate::wording::Wording;
use flask_io::Sink;
use run_output::{RunStop, put_line};
use std::alloc::Global;
use std::sync::Wait;
use std::thread::Threads;

/// So many items at most are a round. So what is put together and not written yet is bounded.
const ROUND: usize = 32_768;

/// Writes the texts of a round's items.
fn write_round<R: Threads + Wait + Sync, T: Sync, W: Wording<T> + Sync, K: Sink>(
    rt: &R,
    alloc: Global,
    wording: &W,
    items: &[T],
    sink: &mut K,
) -> Result<(), RunStop>
    ensures ok { OnOk result (Adds (K.written sink.old) (K.written sink.new) (flat_map (W.text wording.now) items.now)) }
    ensures err { OnErr result (AddsFront (K.written sink.old) (K.written sink.new) (flat_map (W.text wording.now) items.now)) }
    ensures cause { HasCause (K.faults sink.old) (K.faults sink.new) (result ≡ Err RunStop.WriteFault) }
{
    let parts = worded_parts(rt, alloc, wording, items)?;
    'parts: for part in parts.as_slice() {
        let Ok(text) = &part.text else {
            return Err(RunStop::Memory);
        };
        put_line(sink, text)?;
    }
    Ok(())
}

/// Writes the texts of items, in their order. They are put together in threads, where these can be started. Where it stops before, a
/// front of the texts was written.
pub fn write_all<R: Threads + Wait + Sync, T: Sync, W: Wording<T> + Sync, K: Sink>(
    rt: &R,
    alloc: Global,
    wording: &W,
    items: &[T],
    sink: &mut K,
) -> Result<(), RunStop>
    ensures ok { OnOk result (Adds (K.written sink.old) (K.written sink.new) (flat_map (W.text wording.now) items.now)) }
    ensures err { OnErr result (AddsFront (K.written sink.old) (K.written sink.new) (flat_map (W.text wording.now) items.now)) }
    ensures cause { HasCause (K.faults sink.old) (K.faults sink.new) (result ≡ Err RunStop.WriteFault) }
{
    let mut rest = items;
    'rounds: while !rest.is_empty() {
        let (round, behind) = rest.split_at(rest.len().min(ROUND));
        write_round(rt, alloc, wording, round, sink)?;
        rest = behind;
    }
    Ok(())
}
