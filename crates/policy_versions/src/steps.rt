//! The steps from a context to those of the objects that its subject makes or is led to.

ghost use Rattle.std.specs.Prelude.{◌≡◌, ℕ, ◌<◌, false, true, length, Some, IfOk, if◌then◌else◌};
ghost use Rattle.policy_model.specs.declared.policy.Labelling.TheVariants as labelling;
ghost use Rattle.policy_model.specs.Deciding as decide;
ghost use Rattle.policy_versions.specs.Numbers.{is_marked, made_kind, AreBelow};
ghost use Rattle.policy_versions.specs.Given.{given_at};
ghost use Rattle.policy_versions.specs.Steps.{StayMarked, TakesClass, Takes, TakesTargets, TakesSources, TakesVersions, OnlyGives, AreDue};

use crate::given::GivenRows;
use crate::kind::Kind;
use crate::marks::Marks;
use access_vectors::Class;
use flask_sid::Memory;
use policy_model::Labelling;
use std::alloc::Global;

/// The steps from a context to others that some version of a policy and some target make, by the types of both
/// contexts: to the row of the first, and to its user's row of objects.
#[derive(Drop)]
pub(crate) struct Steps {
    own: Marks,
    object: Marks,
    ghost own_sized: { length own ≡ 16384 },
    ghost object_sized: { length object ≡ 16384 },
}

impl Steps {
    /// Whether there is a step from one type to another in the same row.
    pub(crate) fn to_own(&self, s: Kind, kind: Kind) -> bool
        ensures value { result ≡ is_marked self.now.own s kind }
        ensures within { kind < 128 }
    {
        self.own.has(u16::from(s.place()), kind)
    }

    /// Whether there is a step from one type to another in the row of objects.
    pub(crate) fn to_object(&self, s: Kind, kind: Kind) -> bool
        ensures value { result ≡ is_marked self.now.object s kind }
        ensures within { kind < 128 }
    {
        self.object.has(u16::from(s.place()), kind)
    }

    /// A place from which on there is no step to a type.
    pub(crate) fn bound(&self) -> usize
        ensures own { AreBelow self.now.own result }
        ensures object { AreBelow self.now.object result }
    {
        self.own.bound().max(self.object.bound())
    }

    /// The steps that versions make for sources and targets of the present types. A version that gives what the one before it
    /// gives makes no new step.
    pub(crate) fn of(
        alloc: Global,
        given: &GivenRows,
        versions: u8,
        present: &Marks,
    ) -> Result<Steps, Memory>
        ensures takes { IfOk result (λ steps. TakesVersions (given_at given.now) present.now versions steps.own steps.object) }
        ensures due { IfOk result (λ steps. AreDue (given_at given.now) versions present.now steps.own steps.object) }
    {
        let mut steps = Steps {
            own: Marks::new(alloc, 128)?,
            object: Marks::new(alloc, 128)?,
        };
        'versions: for version in 0..versions {
            if version == 0 || !given.gives_as(version, version - 1) {
                steps.take_sources(given, version, present);
            }
        }
        Ok(steps)
    }

    fn take_sources(&mut self, given: &GivenRows, version: u8, present: &Marks)
        ensures own { StayMarked self.old.own self.new.own }
        ensures object { StayMarked self.old.object self.new.object }
        ensures takes { TakesSources (given_at given.now) present.now version 128 self.new.own self.new.object }
        ensures due { (versions : ℕ) → version < versions → AreDue (given_at given.now) versions present.now self.old.own self.old.object
            → AreDue (given_at given.now) versions present.now self.new.own self.new.object }
    {
        'sources: for s in 0..128usize {
            let source = Kind::at(s);
            if present.has(0, source) {
                self.take_targets(given, version, source, present);
            }
        }
    }

    fn take_targets(&mut self, given: &GivenRows, version: u8, s: Kind, present: &Marks)
        ensures own { StayMarked self.old.own self.new.own }
        ensures object { StayMarked self.old.object self.new.object }
        ensures takes { TakesTargets (given_at given.now) present.now version s 128 self.new.own self.new.object }
        ensures due { (versions : ℕ) → version < versions → AreDue (given_at given.now) versions present.now self.old.own self.old.object
            → AreDue (given_at given.now) versions present.now self.new.own self.new.object }
    {
        'targets: for t in 0..128usize {
            let target = Kind::at(t);
            if present.has(0, target) {
                self.take(given, version, s, target);
            }
        }
    }

    fn take(&mut self, given: &GivenRows, version: u8, s: Kind, t: Kind)
        ensures own { StayMarked self.old.own self.new.own }
        ensures object { StayMarked self.old.object self.new.object }
        ensures takes { Takes (given_at given.now) version s t self.new.own self.new.object }
        ensures only { OnlyGives (given_at given.now) version s t self.old.own self.old.object self.new.own self.new.object }
    {
        self.take_class(given, version, s, t, Class::File);
        self.take_class(given, version, s, t, Class::Dir);
        self.take_class(given, version, s, t, Class::Process);
        self.take_class(given, version, s, t, Class::Port);
        self.take_class(given, version, s, t, Class::Security);
    }

    fn take_class(&mut self, given: &GivenRows, version: u8, s: Kind, t: Kind, class: Class)
        ensures own { StayMarked self.old.own self.new.own }
        ensures object { StayMarked self.old.object self.new.object }
        ensures takes { TakesClass (given_at given.now) version s t class self.new.own self.new.object }
        ensures only { OnlyGives (given_at given.now) version s t self.old.own self.old.object self.new.own self.new.object }
    {
        self.take_label(given, version, s, t, class);
        self.take_member(given, version, s, t, class);
    }

    fn take_label(&mut self, given: &GivenRows, version: u8, s: Kind, t: Kind, class: Class)
        ensures own { StayMarked self.old.own self.new.own }
        ensures object { StayMarked self.old.object self.new.object }
        ensures label { is_marked (if decide.takes_after_maker class then self.new.own else self.new.object) s (made_kind (given_at given.now) version s t class) ≡ true }
        ensures only { OnlyGives (given_at given.now) version s t self.old.own self.old.object self.new.own self.new.object }
    {
        let made = given.given(Labelling::Transition, version, s, t, class);
        if takes_after_maker(class) {
            self.own.mark(u16::from(s.place()), made.unwrap_or(s));
        } else {
            self.object.mark(u16::from(s.place()), made.unwrap_or(t));
        }
    }

    fn take_member(&mut self, given: &GivenRows, version: u8, s: Kind, t: Kind, class: Class)
        ensures own { self.new.own ≡ self.old.own }
        ensures object { StayMarked self.old.object self.new.object }
        ensures member { (kind : ℕ) → given_at given.now labelling.Member version s t class ≡ Some kind → is_marked self.new.object s kind ≡ true }
        ensures only { OnlyGives (given_at given.now) version s t self.old.own self.old.object self.new.own self.new.object }
    {
        if let Some(kind) = given.given(Labelling::Member, version, s, t, class) {
            self.object.mark(u16::from(s.place()), kind);
        }
    }
}

pub(crate) fn takes_after_maker(class: Class) -> bool
    ensures { result ≡ decide.takes_after_maker class }
{
    match class {
        Class::Process => true,
        _ => false,
    }
}
