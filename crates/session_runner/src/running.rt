//! The lines of a session, run one after another.

ghost use Rattle.std.specs.Prelude.{◌≡◌, ◌⊎◌, ℕ, ◌+◌, ◌<◌, ◌^◌, true, false, None, IsTrue, IsErrAnd, OnOk, IfErr};
ghost use Rattle.flask_sid.specs.declared.memory.Memory.{Memory};
ghost use Rattle.session_text.specs.Sessions.{IsRun};
ghost use Rattle.session_runner.specs.Runs;
ghost use Rattle.session_runner.specs.Recorders.{TakesAll, StopsAt, StopsBeforeOrAt};
ghost use Rattle.session_runner.specs.Runners.{IsSameRun};
ghost use Rattle.session_runner.specs.Underway.{MayRun};

use crate::outcomes::{Called, Caller};
use crate::recorder::Recorder;
use crate::runner::Runner;
use access_vectors::Decider;
use flask_sid::Memory;
use session_managers::Call;
use session_text::{Run, RunLine};
use std::sync::Wait;

impl<'d, D: Decider> Runner<'d, D> {
    /// Runs a line, and gives a recorder what it came to and what it asked. After `Memory` it does nothing, and stops for want of memory.
    #[inline(always)]
    pub fn run_line<R: Wait, W, E: Recorder<W>>(
        &mut self,
        rt: &R,
        line: RunLine,
        recorder: &mut E,
        out: &mut W,
    ) -> Result<(), E::Stop>
        requires formed { IsRun (λ sid. IsTrue ((D.decides self.old.decider).known sid)) self.old.clients line.run }
        requires calls { self.old.state.calls + 1 < 2 ^ 64 }
        requires changes { self.old.state.changes + 1 < 2 ^ 64 }
        requires serves { E.serves recorder.old self.old.clients }
        ensures taken { OnOk result (E.takes recorder.old out.old (Runs.line_shown (D.decides self.old.decider) self.old.state line) recorder.new out.new) }
        ensures stopped { IfErr result (λ stop. StopsBeforeOrAt E.stops (λ stop. (memory : Memory) × E.Stop.from_gives memory stop)
            recorder.old out.old (Runs.line_shown (D.decides self.old.decider) self.old.state line) out.new stop) }
        ensures serving { (clients : ℕ) → E.serves recorder.old clients → E.serves recorder.new clients }
        ensures state { OnOk result (self.new.state ≡ Runs.state_after (D.decides self.old.decider) self.old.state line.run) }
        ensures same { IsSameRun self.old self.new }
        ensures going { OnOk result (self.new.stopped ≡ false) }
        ensures wants { IfErr result (λ stop. (self.new.stopped ≡ true)
            ⊎ E.stops recorder.old out.old (Runs.line_shown (D.decides self.old.decider) self.old.state line) out.new stop) }
        ensures stays { self.old.stopped ≡ true → IsErrAnd result (λ stop. (memory : Memory) × E.Stop.from_gives memory stop)
            × (self.new ≡ self.old) × (recorder.new ≡ recorder.old) × (out.new ≡ out.old) }
    {
        if self.stopped {
            return Err(Memory.into());
        }
        let RunLine { line, run } = line;
        let (client, call) = match run {
            Run::File { client, call } => (client, Call::File(call)),
            Run::Process { client, call } => (client, Call::Process(call)),
            Run::Port { client, call } => (client, Call::Port(call)),
            run => return self.run_other(rt, RunLine { line, run }, recorder, out),
        };
        let manager = call.manager();
        let caller = Caller {
            client,
            manager,
            number: self.managed.acting(client, manager),
            version: self.managed.acting_version(client, manager),
        };
        let done = self.managed.call(self.alloc, client, line, call);
        self.stopped = done.is_err();
        done?;
        let called = Called {
            line,
            caller,
            got: self.managed.got(manager),
            asked: self.managed.asked(manager),
        };
        recorder.take_call(called, out)
    }

    /// Runs a line that is no client's call. Such lines are few, so they stand apart from the loop.
    #[inline(never)]
    fn run_other<R: Wait, W, E: Recorder<W>>(
        &mut self,
        rt: &R,
        line: RunLine,
        recorder: &mut E,
        out: &mut W,
    ) -> Result<(), E::Stop>
        requires going { self.old.stopped ≡ false }
        requires no_call { Runs.caller_of self.old.state line.run ≡ None }
        requires formed { IsRun (λ sid. IsTrue ((D.decides self.old.decider).known sid)) self.old.clients line.run }
        requires changes { self.old.state.changes + 1 < 2 ^ 64 }
        ensures taken { OnOk result (E.takes recorder.old out.old (Runs.line_shown (D.decides self.old.decider) self.old.state line) recorder.new out.new) }
        ensures stopped { IfErr result (λ stop. StopsBeforeOrAt E.stops (λ stop. (memory : Memory) × E.Stop.from_gives memory stop)
            recorder.old out.old (Runs.line_shown (D.decides self.old.decider) self.old.state line) out.new stop) }
        ensures serving { (clients : ℕ) → E.serves recorder.old clients → E.serves recorder.new clients }
        ensures state { OnOk result (self.new.state ≡ Runs.state_after (D.decides self.old.decider) self.old.state line.run) }
        ensures same { IsSameRun self.old self.new }
        ensures going { OnOk result (self.new.stopped ≡ false) }
        ensures wants { IfErr result (λ stop. (self.new.stopped ≡ true)
            ⊎ E.stops recorder.old out.old (Runs.line_shown (D.decides self.old.decider) self.old.state line) out.new stop) }
    {
        let RunLine { line, run } = line;
        let answer = self.answer(rt, run)?;
        recorder.take(line, answer, out)
    }

    /// Runs all lines, and gives a recorder what each came to and what it asked.
    pub fn run_lines<R: Wait, W, E: Recorder<W>>(
        &mut self,
        rt: &R,
        lines: Vec<RunLine>,
        recorder: &mut E,
        out: &mut W,
    ) -> Result<(), E::Stop>
        requires may { MayRun (D.decides self.old.decider) self.old.clients self.old.state lines.items }
        requires serves { E.serves recorder.old self.old.clients }
        ensures taken { OnOk result (TakesAll E.takes recorder.old out.old (Runs.lines_shown (D.decides self.old.decider) self.old.state lines.items) recorder.new out.new) }
        ensures stopped { IfErr result (λ stop. StopsAt E.takes E.stops (λ stop. (memory : Memory) × E.Stop.from_gives memory stop)
            recorder.old out.old (Runs.lines_shown (D.decides self.old.decider) self.old.state lines.items) out.new stop) }
        ensures same { IsSameRun self.old self.new }
        ensures state { OnOk result (self.new.state ≡ Runs.state_below (D.decides self.old.decider) self.old.state lines.items) }
    {
        'lines: for line in lines {
            self.run_line(rt, line, recorder, out)?;
        }
        Ok(())
    }
}
