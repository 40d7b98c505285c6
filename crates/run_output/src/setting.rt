//! What a run knows of its session besides its lines.

use flask_sid::SidTable;
use policy_model::PolicyParts;
use session_text::ClientLine;

/// What a run knows of its session besides its lines.
#[derive(Drop)]
pub struct Setting<'a> {
    pub policy: &'a PolicyParts,
    /// The contexts of the policy's identifiers.
    pub contexts: &'a SidTable,
    pub clients: &'a [ClientLine],
    /// Whether audit lines are printed.
    pub audited: bool,
}
