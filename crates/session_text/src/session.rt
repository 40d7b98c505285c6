//! Sessions, as their texts give them.

ghost use Rattle.std.specs.Prelude.{◌≡◌, ◌≤◌, length};
ghost use Rattle.session_text.specs.Sessions.{IsSession};

use file_calls::{FileCall, Node};
use flask_sid::{Name, Rows, Sid};
use policy_model::PolicyText;
use port_calls::{LabelledPort, PortCall};
use process_calls::ProcessCall;
use session_forms::Manager;
use std::marker::Model;

/// A client. Clients are numbered from 0 in the order of their lines.
#[derive(Debug, Drop)]
pub struct ClientLine {
    pub name: Name,
    /// The place of its context among the `context` lines, from 1.
    pub sid: Sid,
}

/// What a line that runs asks.
#[derive(Debug, Drop)]
pub enum Run {
    /// A client's call of the file manager.
    File { client: u8, call: FileCall },
    /// A client's call of the process manager.
    Process { client: u8, call: ProcessCall },
    /// A client's call of the port manager.
    Port { client: u8, call: PortCall },
    /// A client takes a pass of a manager, and holds it.
    Begin { client: u8, manager: Manager },
    /// A client gives its held pass of a manager back.
    End { client: u8, manager: Manager },
    /// The administrator chooses a version.
    Notify { ver: u8 },
    /// The administrator lets the first `k` stale slots of each manager follow the pending number.
    Update { k: u32 },
    /// The administrator asks whether the change is complete.
    Ack,
    /// The administrator ends the change without waiting for the passes of the older number.
    Force,
}

/// A line that runs, with its number in the text.
#[derive(Debug, Drop)]
pub struct RunLine {
    pub line: u32,
    pub run: Run,
}

/// All that a session text says.
#[derive(Debug, Drop)]
pub struct SessionParts {
    pub policy: PolicyText,
    /// The place of the root's context among the `context` lines, from 1: that of an `initial root` line, or else 1.
    pub root: Sid,
    /// The place of the context of ports without a line of their own: that of an `initial port` line, or else 1.
    pub port: Sid,
    /// The ports with contexts of their own. A port's `sid` is the place of its context, from 1.
    pub ports: Rows<LabelledPort>,
    /// Whether an `audit` line asks that audit lines be printed.
    pub audit: bool,
    /// The files and directories that are there at the start. A node's `sid` is the place of its context among the
    /// `context` lines, from 1.
    pub nodes: Rows<Node>,
    pub clients: Rows<ClientLine>,
    pub lines: Rows<RunLine>,
}

/// A session. It keeps what the grammar asks of one: root, ports, nodes and clients have declared contexts; paths,
/// names, numbers and data have their forms and limits; each node stands in a directory before it; no port, path or
/// name is given twice; each line is one of a client of the session and names what is declared; passes are taken and
/// given back in turn; and the numbers of the lines rise.
#[derive(Debug, Drop)]
pub struct Session {
    parts: SessionParts,
}

impl Model for Session {
    ghost use Rattle.session_text.specs.declared.session.SessionParts.{SessionParts};
    ghost use Rattle.session_text.specs.Sessions.{IsSession};

    ghost Value = { SessionParts };

    ghost view = { λ session. session.parts };

    ghost invariant = { λ session. IsSession session.parts };
}

impl Session {
    /// A session of parts that are one.
    pub fn of(parts: SessionParts) -> Session
        requires { IsSession parts }
        ensures { result ≡ parts }
    {
        Session { parts }
    }

    /// What the session says.
    pub fn parts(&self) -> &SessionParts
        ensures parts { result.now ≡ self.now }
        ensures kept { IsSession self.now }
    {
        &self.parts
    }

    /// The clients, of whom there are at most 62.
    pub fn clients(&self) -> &[ClientLine]
        ensures value { result.now ≡ self.now.clients }
        ensures few { length result.now ≤ 62 }
    {
        self.parts.clients.as_slice()
    }

    /// What the session says, to take apart.
    pub fn into_parts(self) -> SessionParts
        ensures value { result ≡ self }
        ensures kept { IsSession self }
    {
        let Session { parts } = self;
        parts
    }
}
