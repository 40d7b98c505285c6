//! Whose a line is.

ghost use Rattle.std.specs.Prelude.{◌≡◌};
ghost use Rattle.client_script.specs.Scripts.{owner_of};

use session_text::Run;

/// The client whose line it is, or `None` for a line of the administrator.
pub(crate) fn owner(run: &Run) -> Option<u8>
    ensures { result ≡ owner_of run.now }
{
    match run {
        Run::File { client, .. }
        | Run::Process { client, .. }
        | Run::Port { client, .. }
        | Run::Begin { client, .. }
        | Run::End { client, .. } => Some(*client),
        Run::Notify { .. } | Run::Update { .. } | Run::Ack | Run::Force => None,
    }
}
