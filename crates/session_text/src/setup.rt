//! Session lines, as far as they are read.

ghost use Rattle.std.specs.Prelude.{◌≡◌, ◌||◌, true, [], OnOk, OnErr, IfSome};
ghost use Rattle.file_calls.specs.Openings;
ghost use Rattle.policy_text.specs.Above.{contexts_in};
ghost use Rattle.session_forms.specs.Arguments.{is_root};
ghost use Rattle.session_text.specs.Above;
ghost use Rattle.session_text.specs.Grammar;
ghost use Rattle.session_text.specs.Indexed.{names_of};
ghost use Rattle.session_text.specs.Reading;
ghost use Rattle.session_text.specs.Sessions.{IsSidOf, MayClient, MayNode, MayPort};

use crate::look_up::context_sid;
use crate::session::{ClientLine, Session, SessionParts};
use file_calls::Node;
use flask_sid::{ContextOf, Memory, Name, Piece, Rows, Sid, Word};
use policy_model::PolicyText;
use policy_text::ContextIndex;
use port_calls::LabelledPort;
use session_forms::{Parts, PathIndex};
use std::alloc::Global;
use std::marker::Model;
use text_lines::WordIndex;

/// What session lines said so far: a session without lines that run, and whose context an `initial` line gave. Its indexes
/// have the contexts, the names of clients and the paths of nodes.
#[derive(Drop)]
pub(crate) struct Setup<'a> {
    parts: SessionParts,
    root_given: bool,
    port_given: bool,
    contexts: ContextIndex<'a>,
    clients: WordIndex<'a>,
    nodes: PathIndex<'a>,
}

impl<'a> Model for Setup<'a> {
    ghost use Rattle.session_text.specs.Grammar as grammar;
    ghost use Rattle.session_text.specs.Indexed.{IsSetUpBy};

    ghost Value = { grammar.Setup };

    ghost view = { λ setup. record { session = setup.parts; root_given = setup.root_given; port_given = setup.port_given } };

    ghost invariant = { λ setup. IsSetUpBy setup.parts setup.contexts setup.clients setup.nodes };
}

/// The identifier of the first declared context.
fn first_sid() -> Sid
    ensures { result ≡ 1 }
{
    Sid::of(1).unwrap()
}

impl<'a> Setup<'a> {
    /// Above the first session line: the session of a policy with these contexts, with nothing there yet.
    pub(crate) fn begun(alloc: Global, policy: PolicyText, contexts: ContextIndex<'a>) -> Setup<'a>
        requires { contexts ≡ contexts_in policy.contexts }
        ensures { result ≡ Reading.setup_of_policy policy }
    {
        let _parts = policy.parts();
        Setup {
            parts: SessionParts {
                policy,
                root: first_sid(),
                port: first_sid(),
                ports: Rows::new(alloc),
                audit: false,
                nodes: Rows::new(alloc),
                clients: Rows::new(alloc),
                lines: Rows::new(alloc),
            },
            root_given: false,
            port_given: false,
            contexts,
            clients: WordIndex::new(alloc),
            nodes: PathIndex::new(alloc),
        }
    }

    /// What was said so far.
    pub(crate) fn parts(&self) -> &SessionParts
        ensures { result.now ≡ self.now.session }
    {
        &self.parts
    }

    /// Whether an `initial root` line was read.
    pub(crate) fn is_root_given(&self) -> bool
        ensures { result ≡ self.now.root_given }
    {
        self.root_given
    }

    /// Whether an `initial port` line was read.
    pub(crate) fn is_port_given(&self) -> bool
        ensures { result ≡ self.now.port_given }
    {
        self.port_given
    }

    /// The identifier of a declared context.
    pub(crate) fn sid(&self, context: &ContextOf<Word<'a>>) -> Option<Sid>
        ensures value { result ≡ Above.context_sid self.now.session.policy.contexts context.now }
        ensures known { IfSome result (IsSidOf self.now.session.policy.contexts) }
    {
        context_sid(&self.contexts, context)
    }

    /// Whether a client of that name is there.
    pub(crate) fn has_client(&self, name: &Word<'a>) -> bool
        ensures { result ≡ Above.has_client self.now.session.clients name.now }
    {
        self.clients.has(name)
    }

    /// Whether a node has that path, or the root.
    pub(crate) fn is_taken(&self, path: &Parts<'a>) -> bool
        ensures { result ≡ Grammar.is_taken self.now.session.nodes path.now }
    {
        path.is_root() || self.nodes.has(path)
    }

    /// Whether the directory in which a path stands is there: the root, or one of the nodes.
    pub(crate) fn is_parent_there(&self, path: &Parts<'a>) -> bool
        ensures { result ≡ Openings.is_parent_there self.now.session.nodes path.now }
    {
        self.is_directory(&path.above())
    }

    /// Whether a path is the root's or that of a directory among the nodes.
    fn is_directory(&self, path: &Parts<'a>) -> bool
        ensures { result ≡ (is_root path.now || Openings.has_directory self.now.session.nodes path.now) }
    {
        path.is_root() || self.has_directory(path)
    }

    fn has_directory(&self, path: &Parts<'a>) -> bool
        ensures { result ≡ Openings.has_directory self.now.session.nodes path.now }
    {
        match self.nodes.place(path) {
            None => false,
            Some(at) => match self.parts.nodes.get(at) {
                None => false,
                Some(node) => node.bytes.is_none(),
            },
        }
    }

    /// The session, below its last session line, and the indexes of its contexts and clients.
    pub(crate) fn finish(self) -> (Session, ContextIndex<'a>, WordIndex<'a>)
        ensures value { result.0 ≡ self.entry.session }
        ensures idle { result.0.lines ≡ [] }
        ensures contexts { result.1 ≡ contexts_in self.entry.session.policy.contexts }
        ensures clients { result.2 ≡ names_of self.entry.session.clients }
    {
        let Setup {
            parts,
            root_given: _,
            port_given: _,
            contexts,
            clients,
            nodes: _,
        } = self;
        (Session::of(parts), contexts, clients)
    }
}

// How a session grows, one session line after the other. After `Memory` it is as before.
impl<'a> Setup<'a> {
    pub(crate) fn give_root(&mut self, sid: Sid)
        requires { IsSidOf self.old.session.policy.contexts sid }
        ensures { self.new ≡ record { session = Grammar.with_root sid self.old.session; root_given = true; port_given = self.old.port_given } }
    {
        self.parts.root = sid;
        self.root_given = true;
    }

    pub(crate) fn give_port(&mut self, sid: Sid)
        requires { IsSidOf self.old.session.policy.contexts sid }
        ensures { self.new ≡ record { session = Grammar.with_initial_port sid self.old.session; root_given = self.old.root_given; port_given = true } }
    {
        self.parts.port = sid;
        self.port_given = true;
    }

    pub(crate) fn ask_audit(&mut self)
        ensures { self.new ≡ Grammar.set_up self.old (Grammar.with_audit self.old.session) }
    {
        self.parts.audit = true;
    }

    pub(crate) fn add_port(&mut self, port: u32, sid: Sid) -> Result<(), Memory>
        requires { MayPort self.old.session.policy.contexts self.old.session.ports (record { port = port; sid = sid }) }
        ensures ok { OnOk result (self.new ≡ Grammar.set_up self.old (Grammar.with_port port sid self.old.session)) }
        ensures err { OnErr result (self.new ≡ self.old) }
    {
        self.parts.ports.push(LabelledPort { port, sid })?;
        Ok(())
    }

    /// Adds a node. A list and its index grow together: where the index does not, the list loses the member again.
    pub(crate) fn add_node(
        &mut self,
        alloc: Global,
        path: &Parts<'a>,
        sid: Sid,
        bytes: Option<Piece>,
    ) -> Result<(), Memory>
        requires { MayNode self.old.session.policy.contexts self.old.session.nodes (record { path = path.now; sid = sid; bytes = bytes }) }
        ensures ok { OnOk result (self.new ≡ Grammar.set_up self.old (Grammar.with_node path.now sid bytes self.old.session)) }
        ensures err { OnErr result (self.new ≡ self.old) }
    {
        let kept = path.kept(alloc)?;
        self.parts.nodes.push(Node {
            path: kept,
            sid,
            bytes,
        })?;
        match self.nodes.add(path) {
            Ok(()) => Ok(()),
            Err(memory) => {
                let _node = self.parts.nodes.pop();
                Err(memory)
            }
        }
    }

    /// Adds a client, as `add_node` does a node.
    pub(crate) fn add_client(
        &mut self,
        alloc: Global,
        name: &Word<'a>,
        sid: Sid,
    ) -> Result<(), Memory>
        requires { MayClient self.old.session.policy.contexts self.old.session.clients (record { name = name.now; sid = sid }) }
        ensures ok { OnOk result (self.new ≡ Grammar.set_up self.old (Grammar.with_client name.now sid self.old.session)) }
        ensures err { OnErr result (self.new ≡ self.old) }
    {
        let kept = Name::of(alloc, name)?;
        self.parts.clients.push(ClientLine { name: kept, sid })?;
        match self.clients.add(name) {
            Ok(()) => Ok(()),
            Err(memory) => {
                let _client = self.parts.clients.pop();
                Err(memory)
            }
        }
    }
}
