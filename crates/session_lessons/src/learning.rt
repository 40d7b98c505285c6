//! A session, run on one thread, and what is learned from it.

ghost use Rattle.std.specs.Prelude.{◌<◌, length, IfOk};
ghost use Rattle.policy_versions.specs.Compiling.{IsCatalogueOf, sids_of, decides_of};
ghost use Rattle.session_text.specs.Sessions.{IsSession};
ghost use Rattle.session_lessons.specs.Lessons;

use crate::learner::Learner;
use audit_allow::{Learned, learned};
use flask_sid::{Memory, Rows};
use policy_model::PolicyText;
use policy_versions::Catalogue;
use session_runner::{Opened, open};
use session_text::SessionParts;
use std::alloc::Global;
use std::sync::Wait;

/// What was learned from a session, with its policy.
#[derive(Debug, Drop)]
pub struct Learnt {
    pub policy: PolicyText,
    pub learned: Learned,
}

/// Learns from a session under a version of its policy, of which this is the catalogue.
pub fn learn<R: Wait>(
    rt: &R,
    alloc: Global,
    session: SessionParts,
    version: u8,
    catalogue: &Catalogue,
) -> Result<Learnt, Memory>
    requires session { IsSession session }
    requires compiled { IsCatalogueOf session.policy catalogue.now }
    requires version { version < length session.policy.versions }
    ensures { IfOk result (Lessons.IsLearnt version (sids_of catalogue.now) (decides_of catalogue.now) session) }
{
    let Opened {
        mut runner,
        lines,
        policy,
        clients: _,
        audit: _,
    } = open(alloc, session, catalogue)?;
    let mut learner = Learner {
        policy: policy.parts(),
        contexts: catalogue.sids(),
        version,
    };
    let mut denied = Rows::new(alloc);
    runner.run_lines(rt, lines, &mut learner, &mut denied)?;
    let learned = learned(alloc, &policy, catalogue.sids(), version, denied.as_slice())?;
    Ok(Learnt { policy, learned })
}
