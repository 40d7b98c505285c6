//! What the slots of a caller give it.

ghost use Rattle.std.specs.Prelude.{◌≡◌};

use mode_questions::SlotUse;
use retained_rights::Usable;

/// What a used slot gives its client.
#[inline(always)]
pub fn usage_of(usable: &Usable) -> SlotUse
    ensures { result ≡ record { t = usable.now.t; mode = usable.now.mode; bits = usable.now.bits; number = usable.now.number } }
{
    SlotUse {
        t: usable.t,
        mode: usable.mode,
        bits: usable.bits,
        number: usable.number,
    }
}
