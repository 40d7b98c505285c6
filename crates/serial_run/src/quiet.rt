//! A run of which nothing is kept but its counts.

use flask_sid::Memory;
use session_runner::{Called, LineAnswer, Recorder};

/// Drops what each line came to.
#[derive(Drop)]
pub(crate) struct Quiet;

impl Recorder<()> for Quiet {
    type Stop = Memory;

    ghost serves = { λ quiet clients. Unit {0} };

    ghost takes = { λ quiet out one after later. Unit {0} };

    ghost stops = { λ quiet out one later stop. Unit {0} };

    #[inline(always)]
    fn take_call(&mut self, _: Called<'_>, _: &mut ()) -> Result<(), Memory> {
        Ok(())
    }

    #[inline(always)]
    fn take(&mut self, _: u32, _: LineAnswer, _: &mut ()) -> Result<(), Memory> {
        Ok(())
    }
}
