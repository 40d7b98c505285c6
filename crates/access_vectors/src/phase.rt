//! Where a policy change stands.

ghost use Rattle.std.specs.Prelude.{◌≡◌};
ghost use Rattle.access_vectors.specs.Phases;

/// Where a policy change stands. While one is pending, `number` is the new number, and the number before it is
/// still in use.
#[derive(Clone, Copy, Debug, PartialEq, Eq)]
pub enum Phase {
    Settled { number: u32, version: u8 },
    Pending { number: u32, old: u8, new: u8 },
}

impl Phase {
    /// The newest policy number: the settled one, or the one that is pending.
    pub fn number(&self) -> u32
        ensures { result ≡ Phases.number_of self.now }
    {
        match *self {
            Phase::Settled { number, .. } | Phase::Pending { number, .. } => number,
        }
    }

    /// The settled policy number: the one before the pending one where a change is pending.
    pub fn settled(&self) -> u32
        ensures { result ≡ Phases.settled_number self.now }
    {
        match *self {
            Phase::Settled { number, .. } => number,
            Phase::Pending { number, .. } => number.saturating_sub(1),
        }
    }

    /// The version of a policy number that an operation may name in this phase.
    pub fn version_at(&self, number: u32) -> u8
        ensures { result ≡ Phases.version_at self.now number }
    {
        match *self {
            Phase::Settled { version, .. } => version,
            Phase::Pending {
                number: pending,
                old,
                new,
            } => { if number == pending { new } else { old } }
        }
    }

    /// Whether a change is pending.
    pub fn is_pending(&self) -> bool
        ensures { result ≡ Phases.is_pending self.now }
    {
        matches!(self, Phase::Pending { .. })
    }
}
