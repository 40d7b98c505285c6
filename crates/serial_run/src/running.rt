//! A session, run in the text's order on one thread.

ghost use Rattle.std.specs.Prelude.{◌≡◌, ℕ, Err, IsTrue, OnOk, OnErr};
ghost use Rattle.flask_io.specs.Streams.{Adds, HasCause};
ghost use Rattle.run_output.specs.Writing.{AddsFront};
ghost use Rattle.run_output.specs.declared.stop.RunStop.{RunStop};
ghost use Rattle.session_text.specs.Sessions.{IsSession, IsSidOf};
ghost use Rattle.serial_run.specs.Serial;

use crate::ending::{write_counts, write_end};
use crate::printing::Printing;
use crate::quiet::Quiet;
use access_vectors::Decider;
use flask_io::Sink;
use flask_sid::SidTable;
use run_output::{RunStop, Setting};
use session_runner::{Opened, open};
use session_text::SessionParts;
use std::alloc::Global;
use std::mem::forget;
use std::sync::Wait;

/// Runs a session on a decider, whose identifiers stand for these contexts, and writes its text. Where it stops before, a
/// front of the text was written. The memory of a run that ended is left to the system, which takes it back with the program's.
pub fn serial<R: Wait, D: Decider, K: Sink>(
    rt: &R,
    alloc: Global,
    session: SessionParts,
    decider: &D,
    contexts: &SidTable,
    sink: &mut K,
) -> Result<(), RunStop>
    requires session { IsSession session }
    requires known { (sid : ℕ) → IsSidOf session.policy.contexts sid → IsTrue ((D.decides decider.now).known sid) }
    ensures ok { OnOk result (Adds (K.written sink.old) (K.written sink.new) (Serial.text_on contexts.now (D.decides decider.now) session)) }
    ensures err { OnErr result (AddsFront (K.written sink.old) (K.written sink.new) (Serial.text_on contexts.now (D.decides decider.now) session)) }
    ensures cause { HasCause (K.faults sink.old) (K.faults sink.new) (result ≡ Err RunStop.WriteFault) }
{
    let Opened {
        mut runner,
        lines,
        policy,
        clients,
        audit,
    } = open(alloc, session, decider)?;
    let setting = Setting {
        policy: policy.parts(),
        contexts,
        clients: clients.as_slice(),
        audited: audit,
    };
    let mut printing = Printing::new(alloc, setting)?;
    runner.run_lines(rt, lines, &mut printing, sink)?;
    let written = write_end(alloc, &printing, runner.counts(), sink);
    forget(runner);
    written
}

/// Runs a session on a decider, and writes its summary alone. Where it stops before, a front of the summary was written. The
/// memory of a run that ended is left to the system, as in `serial`.
pub fn summary<R: Wait, D: Decider, K: Sink>(
    rt: &R,
    alloc: Global,
    session: SessionParts,
    decider: &D,
    sink: &mut K,
) -> Result<(), RunStop>
    requires session { IsSession session }
    requires known { (sid : ℕ) → IsSidOf session.policy.contexts sid → IsTrue ((D.decides decider.now).known sid) }
    ensures ok { OnOk result (Adds (K.written sink.old) (K.written sink.new) (Serial.summary_on (D.decides decider.now) session)) }
    ensures err { OnErr result (AddsFront (K.written sink.old) (K.written sink.new) (Serial.summary_on (D.decides decider.now) session)) }
    ensures cause { HasCause (K.faults sink.old) (K.faults sink.new) (result ≡ Err RunStop.WriteFault) }
{
    let Opened {
        mut runner,
        lines,
        policy: _,
        clients: _,
        audit: _,
    } = open(alloc, session, decider)?;
    runner.run_lines(rt, lines, &mut Quiet, &mut ())?;
    let written = write_counts(alloc, runner.counts(), sink);
    forget(runner);
    written
}
