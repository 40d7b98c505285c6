//! What a worker runs with.

use audit_queue::AuditQueue;
use flask_sid::SidTable;
use policy_model::PolicyParts;
use std::alloc::Global;

/// Which questions have an audit line, by the policy and the contexts of its identifiers, and whether audit lines are printed.
#[derive(Drop)]
pub struct Audit<'a> {
    pub policy: &'a PolicyParts,
    pub contexts: &'a SidTable,
    pub printed: bool,
}

/// What a client's worker runs with: its runtime, memory, the queue of the audit lines and which lines there are, and where a test
/// may hold it.
#[derive(Drop)]
pub struct Worker<'r, 's, 'g, R, G> {
    pub rt: &'r R,
    pub alloc: Global,
    pub queue: &'s AuditQueue,
    pub audit: &'g Audit<'g>,
    pub stops: &'g G,
}
