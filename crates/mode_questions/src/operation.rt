//! One call in hand: who calls under which policy number, and what was asked for it so far.

ghost use Rattle.std.specs.Prelude.{◌≡◌, IsTrue};

use access_vectors::{Asker, Class, Perm, Questions, ask};
use flask_sid::{Memory, Sid};
use std::alloc::Global;
use std::snapshot::Snapshot;

/// Who calls, with which identifier and under which policy number. `begun` is the asker as the call begins.
#[derive(Drop)]
pub struct Caller<A> {
    pub alloc: Global,
    pub client: u8,
    pub subject: Sid,
    pub number: u32,
    pub begun: Snapshot<A>,
}

impl<A> Caller<A> {
    /// The caller of a call that begins with this asker.
    #[inline(always)]
    pub fn new(alloc: Global, client: u8, subject: Sid, number: u32, asker: &A) -> Self
        ensures client { result.client ≡ client }
        ensures subject { result.subject ≡ subject }
        ensures number { result.number ≡ number }
        ensures begun { result.begun.value ≡ asker.now }
    {
        let begun = Snapshot::of(asker);
        Caller {
            alloc,
            client,
            subject,
            number,
            begun,
        }
    }
}

/// One call in hand. Its asker keeps decider and version, and its subject is one that the decider knows.
pub struct Operation<'a, A: Asker> {
    pub caller: &'a Caller<A>,
    pub asker: &'a mut A,
    pub asked: &'a mut Questions,
    pub ghost decides: { A.decides asker.now ≡ A.decides caller.now.begun.value },
    pub ghost at_version: { A.version asker.now ≡ A.version caller.now.begun.value },
    pub ghost known: { IsTrue ((A.decides caller.now.begun.value).known caller.now.subject) },
}

impl<'a, A: Asker> Operation<'a, A> {
    ghost use Rattle.std.specs.Prelude.{◌≡◌, [], IsTrue};
    ghost use Rattle.mode_questions.specs.Requests.{question_of};
    ghost use Rattle.mode_questions.specs.Operations.{request, HasAsked, IsAnswered};

    /// The operation of a caller, for which nothing was asked yet.
    #[inline(always)]
    pub fn new(caller: &'a Caller<A>, asker: &'a mut A, asked: &'a mut Questions) -> Self
        requires begun { caller.now.begun.value ≡ asker.old }
        requires known { IsTrue ((A.decides asker.old).known caller.now.subject) }
        ensures caller { result.caller.now ≡ caller.entry.now }
        ensures asker { result.asker.now ≡ asker.old }
        ensures asked { result.asked.now ≡ asked.old }
        ensures asker_name { result.asker.ghost_name ≡ asker.entry.ghost_name }
        ensures asked_name { result.asked.ghost_name ≡ asked.entry.ghost_name }
    {
        Operation {
            caller,
            asker,
            asked,
        }
    }

    /// Asks whether the subject has a permission on `t`.
    #[inline(always)]
    pub fn ask(&mut self, t: Sid, perm: Perm) -> Result<bool, Memory>
        requires { IsTrue ((request self.old).decisions.known t) }
        ensures { IsAnswered result self.old self.new (question_of (request self.old) t perm) }
    {
        let yes = ask(self.asker, self.asked, self.caller.subject, t, perm)?;
        Ok(yes)
    }

    /// The label of a new object of a class that a source makes at a target.
    #[inline(always)]
    pub fn label(&mut self, s: Sid, t: Sid, c: Class) -> Sid
        requires source { IsTrue ((request self.old).decisions.known s) }
        requires target { IsTrue ((request self.old).decisions.known t) }
        ensures label { let r = request self.old in result ≡ r.decisions.label r.version s t c }
        ensures asked { HasAsked self.old self.new [] }
    {
        self.asker.label(s, t, c)
    }

    /// The member of a set of objects of a class that the subject is led to.
    #[inline(always)]
    pub fn member(&mut self, t: Sid, c: Class) -> Sid
        requires { IsTrue ((request self.old).decisions.known t) }
        ensures member { let r = request self.old in result ≡ r.decisions.member r.version r.subject t c }
        ensures asked { HasAsked self.old self.new [] }
    {
        self.asker.member(self.caller.subject, t, c)
    }
}
