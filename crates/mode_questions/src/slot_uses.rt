//! Uses through a slot: where the slot follows the policy number its usable bits tell, and no cache is looked up.

ghost use Rattle.std.specs.Prelude.{◌≡◌, ◌++◌, IfOk, OnOk};
ghost use Rattle.mode_questions.specs.Requests.{judging};

use crate::operation::Operation;
use access_vectors::{Asked, Asker, Class, Perm, Questions, Vector, ask};
use flask_sid::{Memory, Sid};

/// What a slot of the caller gives: the label of its object, its mode, the usable bits of the mode, and the policy number that
/// they follow.
#[derive(Clone, Copy, Debug)]
pub struct SlotUse {
    pub t: Sid,
    pub mode: Vector,
    pub bits: Vector,
    pub number: u32,
}

impl<'a, A: Asker> Operation<'a, A> {
    ghost use Rattle.std.specs.Prelude.{◌≡◌, ◌==◌, true, bit_and, IsTrue, if◌then◌else◌};
    ghost use Rattle.access_vectors.specs.Vectors.{has};
    ghost use Rattle.mode_questions.specs.Covered.{IsModeOf};
    ghost use Rattle.mode_questions.specs.Requests.{question_of, asking_mode};
    ghost use Rattle.mode_questions.specs.Operations.{request, IsUseAnswered, IsWholeAnswered};

    /// Whether a slot of the caller lets it use a permission of the slot's mode.
    #[tactic(auto, using(crate::proofs::Bits::has_ruled))]
    #[inline(always)]
    pub fn ask_use(&mut self, usage: SlotUse, perm: Perm) -> Result<bool, Memory>
        requires target { IsTrue ((request self.old).decisions.known usage.t) }
        requires mode { has usage.mode perm.index ≡ true }
        requires bits { let r = request self.old in
            usage.number ≡ r.number → usage.bits ≡ bit_and usage.mode (r.decisions.vector r.version r.subject usage.t perm.class) }
        ensures { let r = request self.old in IsUseAnswered (usage.number == r.number) result self.old self.new (question_of r usage.t perm) }
    {
        let s = self.caller.subject;
        let t = usage.t;
        if usage.number != self.caller.number {
            let yes = ask(self.asker, self.asked, s, t, perm)?;
            return Ok(yes);
        }
        let yes = usage.bits.has(perm.index());
        self.asked.add(Asked { s, t, perm, yes })?;
        Ok(yes)
    }

    /// Asks the whole mode of a slot of the caller, whose permissions of a class these are, and tells the first that is
    /// denied. Where the usable bits are none, the decider is asked past the cache which permission is missing.
    #[inline(always)]
    pub fn ask_whole(
        &mut self,
        usage: SlotUse,
        class: Class,
        perms: &[Perm],
    ) -> Result<Option<Perm>, Memory>
        requires target { IsTrue ((request self.old).decisions.known usage.t) }
        requires mode { IsModeOf class perms.now usage.mode }
        requires bits { let r = request self.old in let vector = r.decisions.vector r.version r.subject usage.t class in
            usage.number ≡ r.number → usage.bits ≡ (if bit_and usage.mode vector == usage.mode then usage.mode else 0) }
        ensures { let r = request self.old in IsWholeAnswered (usage.number == r.number) result self.old self.new
            (asking_mode r usage.t usage.mode perms.now) }
    {
        let s = self.caller.subject;
        let mode = usage.mode;
        if self.caller.number != usage.number {
            let denied = self.ask_mode(s, usage.t, mode, perms)?;
            return Ok(denied);
        }
        if usage.bits.bits() == mode.bits() {
            let denied = judge_mode(mode, self.asked, s, usage.t, mode, perms)?;
            return Ok(denied);
        }
        let version = self.asker.version();
        let known = self.asker.vector_at(version, s, usage.t, class);
        let denied = judge_mode(known, self.asked, s, usage.t, mode, perms)?;
        Ok(denied)
    }
}

/// Adds the questions of those of the permissions that the mode has, in their order, with the answers of a known vector, and
/// tells the first that is denied. After `Memory` some questions may have been added.
#[inline(always)]
fn judge_mode(
    known: Vector,
    asked: &mut Questions,
    s: Sid,
    t: Sid,
    mode: Vector,
    perms: &[Perm],
) -> Result<Option<Perm>, Memory>
    ensures denied { IfOk result (λ denied. denied ≡ (judging known s t mode perms.now).denied) }
    ensures added { OnOk result (asked.new ≡ asked.old ++ (judging known s t mode perms.now).asked) }
{
    match perms {
        [] => Ok(None),
        [perm, rest @ ..] => {
            if !mode.has(perm.index()) {
                return judge_mode(known, asked, s, t, mode, rest);
            }
            let yes = known.has(perm.index());
            asked.add(Asked {
                s,
                t,
                perm: *perm,
                yes,
            })?;
            if !yes {
                return Ok(Some(*perm));
            }
            judge_mode(known, asked, s, t, mode, rest)
        }
    }
}
