//! Audit lines, client by client.

ghost use Rattle.std.specs.Prelude.{◌≡◌, ◌<◌, ◌∷◌, ◌++◌, [], ℕ, length, replicate, take, IfOk, OnOk, OnErr};
ghost use Rattle.audit_log.specs.Audited;
ghost use Rattle.audit_log.specs.Logs;

use crate::audited::{Acting, AuditLine, AuditLines, is_audited, line_for};
use access_vectors::Asked;
use flask_sid::{Memory, Rows, SidTable};
use policy_model::PolicyParts;
use std::alloc::Global;
use std::marker::Model;

/// The audit lines of each of a number of clients, in the order in which they were put. Contracts see a list of lines for
/// each client.
#[derive(Debug, Drop)]
pub struct AuditLog {
    clients: Vec<AuditLines>,
}

impl Model for AuditLog {
    ghost use Rattle.std.specs.Prelude.{List};
    ghost use Rattle.audit_log.specs.declared.audited.AuditLine.{AuditLine};

    ghost Value = { List (List AuditLine) };

    ghost view = { λ log. log.clients.items };
}

impl AuditLog {
    /// A log of so many clients, with no line yet.
    pub fn new(alloc: Global, clients: u8) -> Result<AuditLog, Memory>
        ensures { IfOk result (λ log. log ≡ replicate clients []) }
    {
        let mut lists = Vec::new(alloc);
        'clients: for _client in 0..clients {
            lists.push(Rows::new(alloc))?;
        }
        Ok(AuditLog { clients: lists })
    }

    /// Puts a line behind those of its client. After `Memory` the log is as before.
    pub fn put(&mut self, line: AuditLine) -> Result<(), Memory>
        requires { line.client < length self.old }
        ensures own { OnOk result (Logs.of_client self.new line.client ≡ Logs.of_client self.old line.client ++ line ∷ []) }
        ensures others { OnOk result ((client : ℕ) → (line.client ≡ client → ⊥) → Logs.of_client self.new client ≡ Logs.of_client self.old client) }
        ensures clients { length self.new ≡ length self.old }
        ensures err { OnErr result (self.new ≡ self.old) }
    {
        self.clients[usize::from(line.client)].push(line)
    }

    /// Puts the audit lines of an operation that asked these questions, in their order. After `Memory` the log has those of
    /// the first so many questions, and no other line more.
    pub fn log(
        &mut self,
        policy: &PolicyParts,
        sids: &SidTable,
        acting: Acting,
        asked: &[Asked],
    ) -> Result<(), Memory>
        requires { acting.client < length self.old }
        ensures lines { OnOk result (Logs.Gains self.old self.new (Audited.lines_asked policy.now sids.now acting asked.now)) }
        ensures err { OnErr result ((n : ℕ) × Logs.Gains self.old self.new (Audited.lines_asked policy.now sids.now acting (take n asked.now))) }
        ensures clients { length self.new ≡ length self.old }
    {
        'questions: for question in asked {
            if is_audited(policy, sids, question) {
                self.put(line_for(acting, question))?;
            }
        }
        Ok(())
    }

    /// The lines of a client, in the order in which they were put.
    pub fn of(&self, client: u8) -> &[AuditLine]
        requires { client < length self.now }
        ensures { result.now ≡ Logs.of_client self.now client }
    {
        self.clients[usize::from(client)].as_slice()
    }
}
