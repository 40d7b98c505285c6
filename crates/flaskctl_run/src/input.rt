//! Reading the input to its end.

use crate::stop::Stop;
use flask_io::{Got, Source};
use std::alloc::Global;

/// The greatest number of bytes that an input may have.
const INPUT_LIMIT: usize = 4_194_304;

/// All bytes of a source. `TooLarge` where it has more than an input may have.
pub fn read_input<S: Source>(alloc: Global, source: &mut S) -> Result<Vec<u8>, Stop> {
    let mut bytes = Vec::new(alloc);
    let mut chunk = [0; 4096];
    'reads: for _ in 0..=INPUT_LIMIT {
        match source.read(&mut chunk) {
            Got::End => return Ok(bytes),
            Got::Failed => return Err(Stop::ReadFault),
            Got::Bytes(n) => bytes.extend_from_slice(&chunk[..n])?,
        }
        if bytes.len() > INPUT_LIMIT {
            return Err(Stop::TooLarge);
        }
    }
    Err(Stop::TooLarge)
}
