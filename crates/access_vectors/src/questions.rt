//! The questions of a call, in their order.

ghost use Rattle.std.specs.Prelude.{◌≡◌, [], ◌∷◌, ◌++◌, length, OnOk, OnErr, IfOk, slice_get};
ghost use Rattle.std.specs.Option.{option_copied};

use crate::asked::Asked;
use flask_sid::Memory;
use smallvec::SmallVec;
use std::alloc::Global;
use std::marker::Model;

/// The questions of a call in the order in which they were asked, which contracts see as a list of `Asked`. Up to two
/// lie in the value itself.
#[derive(Debug, Drop)]
pub struct Questions {
    asked: SmallVec<Asked, 2>,
}

impl Model for Questions {
    ghost use Rattle.std.specs.Prelude.{List};
    ghost use Rattle.access_vectors.specs.declared.asked.Asked.{Asked};

    ghost Value = { List Asked };

    ghost view = { λ questions. questions.asked.items };
}

impl Questions {
    /// No question, which takes no memory yet.
    pub fn new(alloc: Global) -> Questions
        ensures { result ≡ [] }
    {
        Questions {
            asked: SmallVec::new(alloc),
        }
    }

    /// Adds a question at the end. After `Memory` the questions are as before.
    pub fn add(&mut self, q: Asked) -> Result<(), Memory>
        ensures ok { OnOk result (self.new ≡ self.old ++ q ∷ []) }
        ensures err { OnErr result (self.new ≡ self.old) }
    {
        self.asked.push(q)?;
        Ok(())
    }

    /// How many questions there are.
    pub fn len(&self) -> usize
        ensures { result ≡ length self.now }
    {
        self.asked.len()
    }

    /// The question at a place, or `None` exactly where the place is not below the length.
    pub fn get(&self, at: usize) -> Option<&Asked>
        ensures { option_copied result ≡ slice_get self.now at }
    {
        self.asked.as_slice().get(at)
    }

    /// The questions as a slice.
    pub fn as_slice(&self) -> &[Asked]
        ensures { result.now ≡ self.now }
    {
        self.asked.as_slice()
    }

    /// The same questions once more.
    pub fn copy(&self, alloc: Global) -> Result<Questions, Memory>
        ensures { IfOk result (λ questions. questions ≡ self.now) }
    {
        Ok(Questions {
            asked: SmallVec::from_slice(alloc, self.as_slice())?,
        })
    }
}
