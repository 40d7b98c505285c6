//! What the summary of a threaded run counts.

ghost use Rattle.std.specs.Prelude.{◌≡◌, ◌+◌, ◌<◌, ◌^◌, List};
ghost use Rattle.access_vectors.specs.Decisions.{Decisions};
ghost use Rattle.manager_history.specs.declared.entry.Entry.{Entry};
ghost use Rattle.file_calls.specs.declared.call.FileCall.{FileCall};
ghost use Rattle.file_calls.specs.declared.call.FileReply.{FileReply};
ghost use Rattle.process_calls.specs.declared.call.ProcessCall.{ProcessCall};
ghost use Rattle.process_calls.specs.declared.call.ProcessReply.{ProcessReply};
ghost use Rattle.port_calls.specs.declared.call.PortCall.{PortCall};
ghost use Rattle.port_calls.specs.declared.call.PortReply.{PortReply};
ghost use Rattle.session_text.specs.declared.session.SessionParts.{SessionParts};
ghost use Rattle.run_histories.specs.Histories.{AreOfRun};
ghost use Rattle.threads_text.specs.Texts;

use history_text::Counts;

/// What three histories of a run count, by what each of them counts. The policy numbers acknowledged in each of the three are those
/// acknowledged in the first.
pub fn counts_of_run(files: Counts, processes: Counts, ports: Counts) -> Counts
    requires calls { files.calls + processes.calls + ports.calls < 2 ^ 64 }
    requires denied { files.denied + processes.denied + ports.denied < 2 ^ 64 }
    ensures { (d : Decisions) (session : SessionParts) (f : List (Entry FileCall FileReply)) (p : List (Entry ProcessCall ProcessReply)) (q : List (Entry PortCall PortReply))
        → AreOfRun d session f p q → Texts.AreCountsOf f p q files processes ports → result ≡ Texts.counts_of_run f p q }
{
    Counts {
        calls: files.calls + processes.calls + ports.calls,
        denied: files.denied + processes.denied + ports.denied,
        changes: files.changes,
    }
}
