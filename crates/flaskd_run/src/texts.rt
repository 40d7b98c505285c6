//! A permission, put into a line.

ghost use Rattle.std.specs.Prelude.{◌≡◌, ◌++◌, OnOk};
ghost use Rattle.flaskd_run.specs.Texts;

use access_vectors::{Perm, class_name, perm_name};
use flask_sid::{Memory, Text};

/// Puts a permission with its class.
pub fn put_perm(out: &mut Text, perm: Perm) -> Result<(), Memory>
    ensures { OnOk result (out.new ≡ out.old ++ Texts.perm_text perm) }
{
    out.extend(class_name(perm.class()).as_bytes())?;
    out.extend(b" ")?;
    out.extend(perm_name(perm).as_bytes())
}
