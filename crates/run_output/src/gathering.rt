//! Lines gathered, so that many go out in one write.

ghost use Rattle.std.specs.Prelude.{◌≡◌, true, Err, IfErr, OnOk, OnErr};
ghost use Rattle.flask_io.specs.Streams.{HasCause};
ghost use Rattle.run_output.specs.Gathering.{GoesOut, PutsOrWaits};
ghost use Rattle.run_output.specs.Writing.{AddsFront};
ghost use Rattle.run_output.specs.declared.stop.RunStop.{RunStop};

use crate::stop::{RunStop, put_line};
use flask_io::Sink;
use flask_sid::Text;

/// So many bytes of whole lines are enough for a write.
const ENOUGH: usize = 32_768;

/// Writes the lines that were gathered where they are to go out alone or are enough for a write, and begins to gather anew. Where
/// they are not, they wait for more. Whoever gathers writes what waits at the end.
#[inline(always)]
pub fn put_gathered<K: Sink>(sink: &mut K, gathered: &mut Text, alone: bool) -> Result<(), RunStop>
    ensures ok { OnOk result (PutsOrWaits (K.written sink.old) (K.written sink.new) (K.offered sink.old) (K.offered sink.new) gathered.old gathered.new) }
    ensures alone { alone ≡ true → OnOk result (GoesOut (K.written sink.old) (K.written sink.new) (K.offered sink.old) (K.offered sink.new) gathered.old gathered.new) }
    ensures err { OnErr result (AddsFront (K.written sink.old) (K.written sink.new) gathered.old) }
    ensures why { IfErr result (λ stop. stop ≡ RunStop.WriteFault) }
    ensures cause { HasCause (K.faults sink.old) (K.faults sink.new) (result ≡ Err RunStop.WriteFault) }
{
    if !alone && gathered.as_bytes().len() < ENOUGH {
        return Ok(());
    }
    put_line(sink, gathered)?;
    gathered.clear();
    Ok(())
}
