//! Asking one question, which is kept with its answer.

ghost use Rattle.std.specs.Prelude.{◌≡◌, [], ◌∷◌, ◌++◌, IsTrue, IfOk, OnOk, OnErr};
ghost use Rattle.access_vectors.specs.Asking.{question, with_key, counted};

use crate::asked::Asked;
use crate::asker::Asker;
use crate::perm::Perm;
use crate::questions::Questions;
use flask_sid::{Memory, Sid};

/// Asks whether `s` has a permission on `t`, and adds the question with its answer. After `Memory` the questions
/// are as before.
pub fn ask<A: Asker>(
    asker: &mut A,
    asked: &mut Questions,
    s: Sid,
    t: Sid,
    perm: Perm,
) -> Result<bool, Memory>
    requires source { IsTrue ((A.decides asker.old).known s) }
    requires target { IsTrue ((A.decides asker.old).known t) }
    ensures answer { IfOk result (λ yes. yes ≡ (question (A.decides asker.old) (A.version asker.old) s t perm).yes) }
    ensures added { OnOk result (asked.new ≡ asked.old ++ question (A.decides asker.old) (A.version asker.old) s t perm ∷ []) }
    ensures err { OnErr result (asked.new ≡ asked.old) }
    ensures same { A.same asker.old asker.new }
    ensures decides { A.decides asker.new ≡ A.decides asker.old }
    ensures version { A.version asker.new ≡ A.version asker.old }
    ensures asks { A.asks asker.new ≡ counted (A.asks asker.old) }
    ensures keys { A.keys asker.new ≡ with_key (A.keys asker.old) s t perm.class }
{
    let yes = asker.vector(s, t, perm.class()).has(perm.index());
    asked.add(Asked { s, t, perm, yes })?;
    Ok(yes)
}
