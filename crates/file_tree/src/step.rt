//! Steps of paths.

ghost use Rattle.std.specs.Prelude.{◌≡◌, IfOk};

use flask_sid::{Memory, Piece, Rows};
use std::alloc::Global;

/// A step of a path: the key under which an entry of a directory stands, and its name.
#[derive(Debug, Drop)]
pub struct Step {
    pub key: u16,
    pub name: Piece,
}

impl Step {
    /// Another copy of the step.
    pub fn copy(&self, alloc: Global) -> Result<Step, Memory>
        ensures { IfOk result (λ step. step ≡ self.now) }
    {
        Ok(Step {
            key: self.key,
            name: self.name.copy(alloc)?,
        })
    }
}

/// A copy of a path.
pub fn copy_path(alloc: Global, path: &[Step]) -> Result<Rows<Step>, Memory>
    ensures { IfOk result (λ copied. copied ≡ path.now) }
{
    let mut copied = Rows::new(alloc);
    for step in path {
        copied.push(step.copy(alloc)?)?;
    }
    Ok(copied)
}
