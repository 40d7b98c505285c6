//! What is done with what the lines of a session come to.

ghost use Rattle.std.specs.Prelude.{ℕ, ◌<◌, OnOk, IfErr};
ghost use Rattle.session_runner.specs.Runs;
ghost use Rattle.session_runner.specs.Runs.{Shown};

use crate::outcomes::{Called, LineAnswer};
use flask_sid::Memory;

/// What is done with what each line of a session comes to. It writes into a `W`.
pub trait Recorder<W> {
    /// Why it stops a run.
    type Stop: From<Memory>;

    /// It may be given the lines of a session of so many clients.
    ghost serves: { Self → ℕ → Type 0 };

    /// What a line makes of it and of what it writes into.
    ghost takes: { Self → W → Shown → Self → W → Type 0 };

    /// How it stops at a line: what was written then, and why.
    ghost stops: { Self → W → Shown → W → Self.Stop → Type 0 };

    /// Takes what a client's call got and asked.
    fn take_call(&mut self, called: Called<'_>, out: &mut W) -> Result<(), Self::Stop>
        requires { (clients : ℕ) × serves self.old clients × (called.caller.client < clients) }
        ensures taken { OnOk result (takes self.old out.old (Runs.shown_call called.entry) self.new out.new) }
        ensures stopped { IfErr result (λ stop. stops self.old out.old (Runs.shown_call called.entry) out.new stop) }
        ensures serving { (clients : ℕ) → serves self.old clients → serves self.new clients };

    /// Takes what the line of a number came to that is no client's call.
    fn take(&mut self, line: u32, answer: LineAnswer, out: &mut W) -> Result<(), Self::Stop>
        ensures taken { OnOk result (takes self.old out.old (Runs.shown_other line answer) self.new out.new) }
        ensures stopped { IfErr result (λ stop. stops self.old out.old (Runs.shown_other line answer) out.new stop) }
        ensures serving { (clients : ℕ) → serves self.old clients → serves self.new clients };
}
