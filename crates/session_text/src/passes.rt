//! Which passes the clients hold, line after line.

ghost use Rattle.std.specs.Prelude.{◌≡◌, replicate, length, IfOk};
ghost use Rattle.session_text.specs.Passes;

use crate::session::Run;
use flask_sid::Memory;
use session_forms::Manager;
use std::alloc::Global;
use std::marker::Model;

/// Of which managers a client holds a pass.
#[derive(Clone, Copy, Debug)]
pub(crate) struct ClientPasses {
    pub(crate) file: bool,
    pub(crate) process: bool,
    pub(crate) port: bool,
}

impl ClientPasses {
    /// A client that holds no pass.
    const NONE: ClientPasses = ClientPasses {
        file: false,
        process: false,
        port: false,
    };

    /// Whether the client holds a pass of a manager.
    pub(crate) fn has(self, manager: Manager) -> bool
        ensures { result ≡ Passes.has_pass manager self }
    {
        match manager {
            Manager::File => self.file,
            Manager::Process => self.process,
            Manager::Port => self.port,
        }
    }

    /// The client with a pass of a manager, or without.
    fn with(self, manager: Manager, now: bool) -> ClientPasses
        ensures { result ≡ Passes.with_pass manager now self }
    {
        match manager {
            Manager::File => ClientPasses { file: now, ..self },
            Manager::Process => ClientPasses {
                process: now,
                ..self
            },
            Manager::Port => ClientPasses { port: now, ..self },
        }
    }
}

/// A pass that a line takes, or gives back.
#[derive(Clone, Copy, Debug)]
pub(crate) struct PassChange {
    pub(crate) client: u8,
    pub(crate) manager: Manager,
    /// Whether the client holds the pass below the line.
    pub(crate) now: bool,
}

impl PassChange {
    /// The pass that a line takes or gives back, if any.
    #[inline(always)]
    pub(crate) fn of(run: &Run) -> Option<PassChange>
        ensures { result ≡ Passes.change_of run.now }
    {
        match run {
            Run::Begin { client, manager } => Some(PassChange {
                client: *client,
                manager: *manager,
                now: true,
            }),
            Run::End { client, manager } => Some(PassChange {
                client: *client,
                manager: *manager,
                now: false,
            }),
            _ => None,
        }
    }
}

/// Of which managers each client holds a pass, by the client's number. Contracts see the list.
#[derive(Debug, Drop)]
pub(crate) struct PassTable {
    rows: Vec<ClientPasses>,
}

impl Model for PassTable {
    ghost use Rattle.std.specs.Prelude.{List};
    ghost use Rattle.session_text.specs.declared.passes.ClientPasses.{ClientPasses};

    ghost Value = { List ClientPasses };

    ghost view = { λ table. table.rows.items };
}

impl PassTable {
    /// A table in which so many clients hold no pass.
    pub(crate) fn none_held(alloc: Global, clients: usize) -> Result<PassTable, Memory>
        ensures { IfOk result (λ held. held ≡ replicate clients Passes.no_pass) }
    {
        let mut rows = Vec::new(alloc);
        rows.resize(clients, ClientPasses::NONE)?;
        Ok(PassTable { rows })
    }

    /// The passes that a client holds.
    pub(crate) fn passes_of(&self, client: u8) -> ClientPasses
        ensures { result ≡ Passes.passes_of self.now client }
    {
        self.rows
            .as_slice()
            .get(usize::from(client))
            .copied()
            .unwrap_or(ClientPasses::NONE)
    }

    /// Notes who holds a pass below a line that makes this change.
    #[inline(always)]
    pub(crate) fn note(&mut self, change: Option<PassChange>)
        requires { Passes.IsWithin (length self.old) change }
        ensures { self.new ≡ Passes.noted self.old change }
    {
        if let Some(change) = change {
            let passes = self
                .passes_of(change.client)
                .with(change.manager, change.now);
            self.rows[usize::from(change.client)] = passes;
        }
    }
}
