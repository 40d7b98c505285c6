//! What a client does at a manager, and what it gets.

ghost use Rattle.std.specs.Prelude.{◌≡◌, is_some};
ghost use Rattle.session_managers.specs.SessionStates;
ghost use Rattle.session_managers.specs.One;

use file_calls::{FileCall, FileReply};
use manager_history::Answer;
use port_calls::{PortCall, PortReply};
use process_calls::{ProcessCall, ProcessReply};
use session_forms::Manager;

/// A client's call of one of the managers.
#[derive(Debug, Drop)]
pub enum Call {
    File(FileCall),
    Process(ProcessCall),
    Port(PortCall),
}

/// The reply to a call.
#[derive(Debug, Drop)]
pub enum Reply {
    File(FileReply),
    Process(ProcessReply),
    Port(PortReply),
}

/// What a call got, lent from a manager's history: the reply, or that the call was aborted.
#[derive(Clone, Copy, Debug)]
pub enum Got<'m> {
    File(&'m FileReply),
    Process(&'m ProcessReply),
    Port(&'m PortReply),
    Aborted,
}

/// What a client does at a manager: a call under the client's own number of it, or it takes a pass or gives its pass back.
#[derive(Debug, Drop)]
pub enum Act {
    Call { mark: u32, call: Call },
    Begin,
    End,
}

/// A client's act.
#[derive(Debug, Drop)]
pub struct ClientAct {
    pub client: u8,
    pub act: Act,
}

impl Call {
    /// The manager that the call is of.
    pub fn manager(&self) -> Manager
        ensures { result ≡ SessionStates.manager_of self.now }
    {
        match self {
            Call::File(_) => Manager::File,
            Call::Process(_) => Manager::Process,
            Call::Port(_) => Manager::Port,
        }
    }
}

impl<'m> Got<'m> {
    /// What an answer holds, lent.
    #[inline(always)]
    pub fn of(answer: &'m Answer<Reply>) -> Got<'m>
        ensures { One.got_answer result ≡ answer.now }
    {
        match answer {
            Answer::Did(Reply::File(reply)) => Got::File(reply),
            Answer::Did(Reply::Process(reply)) => Got::Process(reply),
            Answer::Did(Reply::Port(reply)) => Got::Port(reply),
            Answer::Aborted => Got::Aborted,
        }
    }

    /// Whether it is a denial; that the call was aborted is none.
    #[inline(always)]
    pub(crate) fn is_denied(self) -> bool
        ensures { result ≡ is_some (One.denial_in (One.got_answer self.entry)) }
    {
        matches!(
            self,
            Got::File(FileReply::Denied { .. })
                | Got::Process(ProcessReply::Denied { .. })
                | Got::Port(PortReply::Denied { .. })
        )
    }
}
