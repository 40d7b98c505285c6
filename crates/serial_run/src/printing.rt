//! What the lines of a session print, as each is run.

ghost use Rattle.std.specs.Prelude.{◌≡◌, ◌-◌, ◌<◌, length, replicate, [], true, false, Some, IfOk, OnOk};
ghost use Rattle.audit_log.specs.Logs.{Gains};
ghost use Rattle.serial_run.specs.Serial;

use audit_log::{Acting, AuditLog};
use flask_io::Sink;
use flask_sid::{Memory, Text};
use line_text::{front_of_call, put_answer, put_call};
use run_output::{RunStop, Setting, put_gathered};
use session_runner::{Called, LineAnswer, Recorder};
use std::alloc::Global;

/// So many answers go out each in a write of its own, so that a short run shows each as soon as it can. Those behind them go out many in
/// one write, which takes half the time.
const ALONE: u8 = 64;

/// Writes what the lines came to, and logs their audit lines where they are printed.
#[derive(Drop)]
pub(crate) struct Printing<'a> {
    pub(crate) setting: Setting<'a>,
    pub(crate) log: AuditLog,
    /// The answers that wait for a write.
    pub(crate) gathered: Text,
    /// How many answers more go out each in a write of its own.
    pub(crate) alone: u8,
}

impl<'a> Printing<'a> {
    /// Nothing is written or logged yet.
    pub(crate) fn new(alloc: Global, setting: Setting<'a>) -> Result<Printing<'a>, Memory>
        requires { length setting.clients.now < 256 }
        ensures setting { IfOk result (λ printing. printing.setting ≡ setting.entry) }
        ensures log { IfOk result (λ printing. printing.log ≡ replicate (length setting.entry.clients.now) []) }
        ensures gathered { IfOk result (λ printing. printing.gathered ≡ []) }
        ensures alone { IfOk result (λ printing. printing.alone ≡ 64) }
    {
        let log = AuditLog::new(alloc, setting.clients.len() as u8)?;
        Ok(Printing {
            setting,
            log,
            gathered: Text::new(alloc),
            alone: ALONE,
        })
    }
}

impl<'a, K: Sink> Recorder<K> for Printing<'a> {
    ghost use Rattle.std.specs.Prelude.{◌≡◌, length};
    ghost use Rattle.serial_run.specs.Printing.{Prints, StopsPrint};

    type Stop = RunStop;

    ghost serves = { λ printing clients. length printing.log ≡ clients };

    ghost takes = { Prints K.written K.offered K.faults };

    ghost stops = { StopsPrint K.written K.faults };

    #[inline(always)]
    fn take_call(&mut self, called: Called<'_>, sink: &mut K) -> Result<(), RunStop> {
        let (contexts, clients) = (self.setting.contexts, self.setting.clients);
        let front = front_of_call(&called);
        put_call(&mut self.gathered, contexts, clients, front, called.got)?;
        log_call(&self.setting, &mut self.log, &called)?;
        put_gathered(sink, &mut self.gathered, goes_alone(&mut self.alone))
    }

    fn take(&mut self, line: u32, answer: LineAnswer, sink: &mut K) -> Result<(), RunStop> {
        let (contexts, clients) = (self.setting.contexts, self.setting.clients);
        put_answer(&mut self.gathered, contexts, clients, line, &answer)?;
        put_gathered(sink, &mut self.gathered, goes_alone(&mut self.alone))
    }
}

/// Whether answers still go out alone. If so, one fewer does now.
#[inline(always)]
fn goes_alone(alone: &mut u8) -> bool
    ensures goes { 0 < alone.old → result ≡ true }
    ensures gathers { alone.old ≡ 0 → result ≡ false }
    ensures fewer { alone.new ≡ alone.old - 1 }
{
    let goes = *alone > 0;
    *alone = alone.saturating_sub(1);
    goes
}

/// Logs the audit lines of what a client's call asked, where they are printed.
fn log_call(setting: &Setting<'_>, log: &mut AuditLog, called: &Called<'_>) -> Result<(), Memory>
    requires { called.now.caller.client < length log.old }
    ensures gains { OnOk result (Gains log.old log.new
        (Serial.caller_audit setting.now.audited setting.now.policy.now setting.now.contexts.now called.now.line (Some called.now.caller) called.now.asked.now)) }
    ensures clients { length log.new ≡ length log.old }
{
    if !setting.audited {
        return Ok(());
    }
    let acting = Acting {
        client: called.caller.client,
        mark: called.line,
        number: called.caller.number,
    };
    log.log(setting.policy, setting.contexts, acting, called.asked)
}
