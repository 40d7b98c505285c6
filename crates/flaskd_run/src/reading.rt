//! Reading the source to its end, up to the input limit.

ghost use Rattle.std.specs.Prelude.{◌≡◌, ◌+◌, ◌<◌, ◌≤◌, [], Err, OnOk, vec_len};
ghost use Rattle.flask_io.specs.Streams.{Takes, HasCause};
ghost use Rattle.flaskd_run.specs.Reading.{IsEnd};

use flask_io::{Got, Source};

/// The greatest number of bytes that an input may have.
pub const INPUT_LIMIT: usize = 4_194_304;

const CHUNK: usize = 16_384;

/// Why an input was not read to its end.
#[derive(Clone, Copy, Debug, PartialEq, Eq)]
pub enum ReadStop {
    /// The source failed, and its count of faults rose.
    Fault,
    Memory,
}

/// Reads all that the source has left into the empty `bytes`, or one byte more than an input may have. Also
/// where it stops before, `bytes` is all that was taken. A read asks for as many bytes as pass the limit by one at most.
pub fn read_all<S: Source>(source: &mut S, bytes: &mut Vec<u8>) -> Result<(), ReadStop>
    requires { bytes.old.items ≡ [] }
    ensures takes { Takes (S.left source.old) (S.left source.new) bytes.new.items }
    ensures bounded { vec_len bytes.new ≤ 4194305 }
    ensures whole { OnOk result (vec_len bytes.new ≤ INPUT_LIMIT → IsEnd (S.left source.new)) }
    ensures cause { HasCause (S.faults source.old) (S.faults source.new) (result ≡ Err ReadStop.Fault) }
{
    'reading: while bytes.len() <= INPUT_LIMIT {
        let Ok(()) = bytes.reserve(CHUNK) else {
            return Err(ReadStop::Memory);
        };
        let mut chunk = [0; CHUNK];
        match source.read(&mut chunk[..room(bytes.len())]) {
            Got::Failed => return Err(ReadStop::Fault),
            Got::End => return Ok(()),
            Got::Bytes(n) => {
                // There is room for a chunk, so this takes no memory.
                let _ = bytes.extend_from_slice(&chunk[..n]);
            }
        }
    }
    Ok(())
}

/// How many bytes may be read where so many were: at most a chunk, and at most one past the limit.
fn room(len: usize) -> usize
    requires { len ≤ INPUT_LIMIT }
    ensures some { 0 < result }
    ensures chunk { result ≤ CHUNK }
    ensures limit { len + result ≤ INPUT_LIMIT + 1 }
{
    (INPUT_LIMIT + 1 - len).min(CHUNK)
}
