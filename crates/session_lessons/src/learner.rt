//! What lines were denied under a version, but for what goes without an audit line, kept as each is run.

use access_vectors::Asked;
use audit_log::put_denials;
use flask_sid::{Memory, Rows, SidTable};
use policy_model::PolicyParts;
use session_runner::{Called, LineAnswer, Recorder};

/// Keeps what the calls of clients that act under a version are denied, but for what goes without an audit line.
#[derive(Drop)]
pub(crate) struct Learner<'a> {
    pub(crate) policy: &'a PolicyParts,
    /// The contexts of the policy's identifiers.
    pub(crate) contexts: &'a SidTable,
    pub(crate) version: u8,
}

impl<'a> Recorder<Rows<Asked>> for Learner<'a> {
    ghost use Rattle.session_lessons.specs.Learning.{Learns};

    type Stop = Memory;

    ghost serves = { λ learner clients. Unit {0} };

    ghost takes = { Learns };

    ghost stops = { λ learner out one later stop. Unit {0} };

    fn take_call(&mut self, called: Called<'_>, out: &mut Rows<Asked>) -> Result<(), Memory> {
        if called.caller.version == self.version {
            put_denials(out, self.policy, self.contexts, called.asked)?;
        }
        Ok(())
    }

    fn take(&mut self, _: u32, _: LineAnswer, _: &mut Rows<Asked>) -> Result<(), Memory> {
        Ok(())
    }
}
