//! All contexts to which the declared ones lead, found round by round.

ghost use Rattle.std.specs.Prelude.{◌≡◌, Err, length, OnOk};
ghost use Rattle.std.specs.List.{All};
ghost use Rattle.policy_versions.specs.declared.fill.FillFault.TheVariants as fill_fault;
ghost use Rattle.policy_versions.specs.Numbers.{AreRows};
ghost use Rattle.policy_versions.specs.Founds.{IsInside};
ghost use Rattle.policy_versions.specs.Users.{HasFront};
ghost use Rattle.policy_versions.specs.Closure.{declared_contexts, HasTooMany};
ghost use Rattle.policy_versions.specs.Given.{AreGivenOf};
ghost use Rattle.policy_versions.specs.Closing.{contexts_of, AreWhole};

use crate::fill::FillFault;
use crate::found::Found;
use crate::given::GivenRows;
use crate::steps::Steps;
use crate::user_role::UserRoles;
use policy_model::PolicyText;
use std::alloc::Global;

/// Adds to the declared contexts all to which the policy leads. Each round takes the types of the contexts that were
/// found and follows the steps that these types make; it is the last one when it finds no new type.
pub(crate) fn close(
    alloc: Global,
    policy: &PolicyText,
    given: &GivenRows,
    users: &UserRoles,
    found: &mut Found,
) -> Result<(), FillFault>
    requires given { AreGivenOf policy.now given.now }
    requires rows { found.old.rows ≡ length users.now }
    requires users { AreRows users.now }
    requires inside { All (IsInside (length users.now)) found.old.places }
    requires begun { contexts_of policy.now users.now found.old.places ≡ declared_contexts policy.now }
    ensures rows { found.new.rows ≡ found.old.rows }
    ensures front { HasFront found.new.places found.old.places }
    ensures ok { OnOk result (AreWhole policy.now users.now found.new.places) }
    ensures full { result ≡ Err fill_fault.TooMany → HasTooMany policy.now }
{
    let versions = policy.parts().versions.len() as u8;
    'rounds: loop {
        let present = found.kinds(alloc)?;
        let steps = Steps::of(alloc, given, versions, &present)?;
        found.follow(&steps, users)?;
        if found.are_present(&present) {
            return Ok(());
        }
    }
}
