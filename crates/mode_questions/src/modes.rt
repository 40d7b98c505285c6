//! Asking the permissions of a mode.

use crate::operation::Operation;
use access_vectors::{Asker, Perm, Vector, ask};
use flask_sid::{Memory, Sid};

impl<'a, A: Asker> Operation<'a, A> {
    ghost use Rattle.std.specs.Prelude.{IsTrue};
    ghost use Rattle.mode_questions.specs.Requests.{with_subject, asking_mode};
    ghost use Rattle.mode_questions.specs.Operations.{request, IsModeAnswered};

    /// Asks those of the permissions that the mode has, in their order, for a subject, and tells the first that is denied.
    pub fn ask_mode(
        &mut self,
        s: Sid,
        t: Sid,
        mode: Vector,
        perms: &[Perm],
    ) -> Result<Option<Perm>, Memory>
        requires source { IsTrue ((request self.old).decisions.known s) }
        requires target { IsTrue ((request self.old).decisions.known t) }
        ensures { IsModeAnswered result self.old self.new (asking_mode (with_subject (request self.old) s) t mode perms.now) }
    {
        match perms {
            [] => Ok(None),
            [perm, rest @ ..] => {
                if !mode.has(perm.index()) {
                    let denied = self.ask_mode(s, t, mode, rest)?;
                    return Ok(denied);
                }
                if !ask(self.asker, self.asked, s, t, *perm)? {
                    return Ok(Some(*perm));
                }
                let denied = self.ask_mode(s, t, mode, rest)?;
                Ok(denied)
            }
        }
    }
}
