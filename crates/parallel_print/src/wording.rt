//! What puts the text of an item together.

ghost use Rattle.std.specs.Prelude.{◌≡◌, ◌++◌, ℕ, List, IfOk, OnOk};
ghost use Rattle.std.specs.List.{flat_map};

use flask_sid::{Memory, Text};
use std::alloc::Global;

/// What puts the text of an item together.
pub trait Wording<T> {
    /// The text of an item.
    ghost text: { Self → T → List ℕ };

    /// Puts the text of an item behind what stands there.
    fn put(&self, out: &mut Text, item: &T) -> Result<(), Memory>
        ensures { OnOk result (out.new ≡ out.old ++ text self.now item.now) };
}

/// The texts of items, one behind another.
pub(crate) fn text_of<T, W: Wording<T>>(
    alloc: Global,
    wording: &W,
    items: &[T],
) -> Result<Text, Memory>
    ensures { IfOk result (λ text. text ≡ flat_map (W.text wording.now) items.now) }
{
    let mut out = Text::new(alloc);
    'items: for item in items {
        wording.put(&mut out, item)?;
    }
    Ok(out)
}
