//! How a run stops, and the lines that it writes.

ghost use Rattle.std.specs.Prelude.{◌≡◌, Err, IfErr, OnOk, OnErr};
ghost use Rattle.flask_io.specs.Streams.{Adds, HasCause};
ghost use Rattle.run_output.specs.Writing.{AddsFront, OffersWhole};
ghost use Rattle.run_output.specs.declared.stop.RunStop.{RunStop};
ghost use Rattle.run_output.specs.declared.stop.RunStop.TheVariants as run_stop;

use flask_io::{Put, Sink};
use flask_sid::{Memory, Text};

/// Why a run stopped before its text was written.
#[derive(Clone, Copy, Debug, PartialEq, Eq)]
pub enum RunStop {
    /// The sink failed, and its count of faults rose.
    WriteFault,
    Memory,
}

impl From<Memory> for RunStop {
    ghost from_gives = { λ _ e. e ≡ run_stop.Memory };

    fn from(_: Memory) -> Self {
        RunStop::Memory
    }
}

/// Writes a line that was put together: offers it whole, and then the rest where the sink took a part.
#[inline(always)]
pub fn put_line<K: Sink>(sink: &mut K, out: &Text) -> Result<(), RunStop>
    ensures ok { OnOk result (Adds (K.written sink.old) (K.written sink.new) out.now) }
    ensures err { OnErr result (AddsFront (K.written sink.old) (K.written sink.new) out.now) }
    ensures whole { OffersWhole (K.offered sink.old) (K.offered sink.new) out.now }
    ensures why { IfErr result (λ stop. stop ≡ RunStop.WriteFault) }
    ensures cause { HasCause (K.faults sink.old) (K.faults sink.new) (result ≡ Err RunStop.WriteFault) }
{
    let mut rest = out.as_bytes();
    'offers: while !rest.is_empty() {
        match sink.write(rest) {
            Put::Failed => return Err(RunStop::WriteFault),
            Put::Took(n) => {
                let (_taken, left) = rest.split_at(n);
                rest = left;
            }
        }
    }
    Ok(())
}
