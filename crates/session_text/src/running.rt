//! The lines that run, as far as they are read.

ghost use Rattle.std.specs.Prelude.{◌≡◌, ◌<◌, [], length, Some, IfOk, IfSome, OnOk, OnErr};
ghost use Rattle.session_text.specs.Above;
ghost use Rattle.session_text.specs.Grammar;
ghost use Rattle.session_text.specs.Sessions.{IsSidOf, MayLine};

use crate::look_up::{client_number, context_sid};
use crate::passes::{PassChange, PassTable};
use crate::session::{ClientLine, Run, RunLine, Session, SessionParts};
use crate::setup::Setup;
use flask_sid::{ContextOf, Memory, Sid, Word};
use policy_model::Guesses;
use policy_text::ContextIndex;
use session_forms::Manager;
use std::alloc::Global;
use std::marker::Model;
use text_lines::WordIndex;

/// A session whose lines run. It knows which passes each client holds by the lines so far, and its indexes have the contexts
/// and the names of clients, nearly each of which is found at a guess. Contracts see the session.
#[derive(Drop)]
pub(crate) struct Running<'a> {
    parts: SessionParts,
    held: PassTable,
    contexts: ContextIndex<'a>,
    clients: WordIndex<'a>,
    guesses: Guesses,
}

impl<'a> Model for Running<'a> {
    ghost use Rattle.session_text.specs.declared.session.SessionParts.{SessionParts};
    ghost use Rattle.session_text.specs.Indexed.{IsRunningBy};

    ghost Value = { SessionParts };

    ghost view = { λ running. running.parts };

    ghost invariant = { λ running. IsRunningBy running.parts running.held running.contexts running.clients };
}

impl<'a> Running<'a> {
    /// A session whose lines begin to run: no client holds a pass.
    pub(crate) fn begun(alloc: Global, setup: Setup<'a>) -> Result<Running<'a>, Memory>
        ensures value { IfOk result (λ running. running ≡ setup.entry.session) }
        ensures idle { IfOk result (λ running. running.lines ≡ []) }
    {
        let (session, contexts, clients) = setup.finish();
        let held = PassTable::none_held(alloc, session.clients().len())?;
        let guesses = guesses_of(session.clients());
        Ok(Running {
            parts: session.into_parts(),
            held,
            contexts,
            clients,
            guesses,
        })
    }

    /// The session, at its end.
    pub(crate) fn finish(self) -> Session
        ensures { result ≡ self.entry }
    {
        let Running {
            parts,
            held: _,
            contexts: _,
            clients: _,
            guesses: _,
        } = self;
        Session::of(parts)
    }

    /// The identifier of a declared context.
    pub(crate) fn sid(&self, context: &ContextOf<Word<'a>>) -> Option<Sid>
        ensures value { result ≡ Above.context_sid self.now.policy.contexts context.now }
        ensures known { IfSome result (IsSidOf self.now.policy.contexts) }
    {
        context_sid(&self.contexts, context)
    }

    /// The number of the client of that name.
    pub(crate) fn number(&self, name: &Word<'a>) -> Option<u8>
        ensures value { result ≡ Above.client_number self.now.clients name.now }
        ensures within { IfSome result (λ number. number < length self.now.clients) }
    {
        match self.guessed_number(name) {
            Some(number) => Some(number),
            None => client_number(&self.clients, name),
        }
    }

    /// The number of the client of that name, where the guess at it is right.
    #[inline(always)]
    fn guessed_number(&self, name: &Word<'a>) -> Option<u8>
        ensures value { IfSome result (λ number. Above.client_number self.now.clients name.now ≡ Some number) }
        ensures within { IfSome result (λ number. number < length self.now.clients) }
    {
        let place = self.guesses.place(name.as_bytes());
        let client = self.parts.clients.get(place)?;
        if client.name.is(name) {
            Some(place as u8)
        } else {
            None
        }
    }

    /// Whether a client of that name holds a pass of that manager.
    #[tactic(auto, unfolding(crate::specs::Grammar::holds))]
    pub(crate) fn holds(&self, manager: Manager, name: &Word<'a>) -> bool
        ensures { result ≡ Grammar.holds manager self.now name.now }
    {
        match self.number(name) {
            None => false,
            Some(client) => self.held.passes_of(client).has(manager),
        }
    }

    /// Adds a line. After `Memory` the session is as before.
    #[inline(always)]
    pub(crate) fn add_line(&mut self, line: u32, run: Run) -> Result<(), Memory>
        requires { MayLine self.old.policy.contexts self.old.clients self.old.lines (record { line = line; run = run }) }
        ensures ok { OnOk result (self.new ≡ Grammar.with_line line run self.old) }
        ensures err { OnErr result (self.new ≡ self.old) }
    {
        let change = PassChange::of(&run);
        self.parts.lines.push(RunLine { line, run })?;
        self.held.note(change);
        Ok(())
    }
}

/// Where the name of each client stands, to be guessed at.
fn guesses_of(clients: &[ClientLine]) -> Guesses {
    let mut guesses = Guesses::new();
    'clients: for (place, client) in clients.iter().enumerate() {
        guesses.note(client.name.as_bytes(), place);
    }
    guesses
}
