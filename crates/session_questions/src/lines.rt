//! What a line of a session comes to, and what its call asks, kept.

ghost use Rattle.std.specs.Prelude.{◌≡◌, IfOk};

use crate::copies;
use access_vectors::Asked;
use flask_sid::{Memory, Rows};
use session_runner::{Called, Caller, LineAnswer, Recorder};
use std::alloc::Global;

/// What a client's call asked, with the answers, and the version under which the client acted, counted from 0.
#[derive(Drop)]
pub struct LineQuestions {
    pub version: u8,
    pub asked: Rows<Asked>,
}

/// What the line of a number came to, and what it asked where it is a client's call.
#[derive(Drop)]
pub struct LineRun {
    pub line: u32,
    pub answer: LineAnswer,
    pub questions: Option<LineQuestions>,
}

/// Keeps of each line what it came to and what it asked.
#[derive(Drop)]
pub(crate) struct Keeper {
    pub(crate) alloc: Global,
}

impl Recorder<Rows<LineRun>> for Keeper {
    ghost use Rattle.session_questions.specs.Keeping.{Keeps};

    type Stop = Memory;

    ghost serves = { λ keeper clients. Unit {0} };

    ghost takes = { Keeps };

    ghost stops = { λ keeper out one later stop. Unit {0} };

    fn take_call(&mut self, called: Called<'_>, out: &mut Rows<LineRun>) -> Result<(), Memory> {
        let Caller {
            client,
            manager,
            number,
            version,
        } = called.caller;
        let got = copies::answer(self.alloc, called.got)?;
        let asked = kept(self.alloc, called.asked)?;
        out.push(LineRun {
            line: called.line,
            answer: LineAnswer::Replied {
                client,
                manager,
                number,
                got,
            },
            questions: Some(LineQuestions { version, asked }),
        })
    }

    fn take(
        &mut self,
        line: u32,
        answer: LineAnswer,
        out: &mut Rows<LineRun>,
    ) -> Result<(), Memory> {
        out.push(LineRun {
            line,
            answer,
            questions: None,
        })
    }
}

/// A list of these questions.
fn kept(alloc: Global, asked: &[Asked]) -> Result<Rows<Asked>, Memory>
    ensures { IfOk result (λ kept. kept ≡ asked.now) }
{
    let mut kept = Rows::new(alloc);
    'questions: for question in asked {
        kept.push(*question)?;
    }
    Ok(kept)
}
