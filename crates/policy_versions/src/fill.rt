//! Why a set of contexts is not filled.

use flask_sid::Memory;
use std::alloc::AllocFailed;

/// Why a set of contexts is not filled.
#[derive(Clone, Copy, Debug, PartialEq, Eq)]
pub(crate) enum FillFault {
    /// There are more contexts than identifiers.
    TooMany,
    Memory,
}

impl From<Memory> for FillFault {
    ghost use Rattle.std.specs.Prelude.{◌≡◌};
    ghost use Rattle.policy_versions.specs.declared.fill.FillFault.TheVariants as fill_fault;

    ghost from_gives = { λ _ fault. fault ≡ fill_fault.Memory };

    fn from(_: Memory) -> Self {
        FillFault::Memory
    }
}

impl<T: Drop> From<AllocFailed<T>> for FillFault {
    ghost use Rattle.std.specs.Prelude.{◌≡◌};
    ghost use Rattle.policy_versions.specs.declared.fill.FillFault.TheVariants as fill_fault;

    ghost from_gives = { λ _ fault. fault ≡ fill_fault.Memory };

    fn from(_: AllocFailed<T>) -> Self {
        FillFault::Memory
    }
}
