//! The set of contexts that were found so far.

ghost use Rattle.std.specs.Prelude.{◌≡◌, ℕ, ◌*◌, ◌<◌, ◌≤◌, Err, true, List, length, slice_get, OnOk, OnErr, IfOk, IfSome, if◌then◌else◌};
ghost use Rattle.std.specs.List.{All, IsDistinct};
ghost use Rattle.policy_versions.specs.declared.place.Place.{Place};
ghost use Rattle.policy_versions.specs.declared.fill.FillFault.TheVariants as fill_fault;
ghost use Rattle.policy_versions.specs.Numbers.{has_place, with_place, is_marked, object_row};
ghost use Rattle.policy_versions.specs.Users.{HasFront};
ghost use Rattle.policy_versions.specs.Steps.{IsFollowedTo, IsFollowedBelow};
ghost use Rattle.policy_versions.specs.Founds.{is_same_place, has_kind, are_present, IsInside, Leads, AllLed, AreFollowed, IsFullFor, Overflows};

use crate::fill::FillFault;
use crate::kind::Kind;
use crate::marks::Marks;
use crate::place::Place;
use crate::steps::Steps;
use crate::user_role::UserRoles;
use flask_sid::{MOST_CONTEXTS, Memory};
use std::alloc::Global;
use std::marker::Model;

/// A set of contexts by numbers, in the order in which they were found. It has no more than there are identifiers.
#[derive(Drop)]
pub(crate) struct Found {
    rows: u16,
    places: Vec<Place>,
    marks: Marks,
}

impl Model for Found {
    ghost use Rattle.policy_versions.specs.Founds.{Reached, IsReached};

    ghost Value = { Reached };

    ghost view = { λ found. record { rows = found.rows; places = found.places.items } };

    ghost invariant = { λ found. IsReached found.rows found.places.items found.marks };
}

impl Found {
    /// These places, of so many rows.
    pub(crate) fn of(alloc: Global, rows: u16, places: Vec<Place>) -> Result<Found, Memory>
        requires few { length places.items ≤ 4095 }
        requires inside { All (IsInside rows) places.items }
        requires distinct { IsDistinct is_same_place places.items }
        ensures rows { IfOk result (λ found. found.rows ≡ rows) }
        ensures places { IfOk result (λ found. found.places ≡ places.items) }
    {
        let marks = marks_of(alloc, rows, places.as_slice())?;
        Ok(Found {
            rows,
            places,
            marks,
        })
    }

    /// The places, in the order in which they were found.
    pub(crate) fn places(&self) -> &[Place]
        ensures value { result.now ≡ self.now.places }
        ensures few { length self.now.places ≤ 4095 }
        ensures inside { All (IsInside self.now.rows) self.now.places }
        ensures distinct { IsDistinct is_same_place self.now.places }
    {
        self.places.as_slice()
    }

    /// Adds a place that is new. `TooMany` exactly where it is new and there are as many as identifiers.
    pub(crate) fn add(&mut self, row: u16, kind: Kind) -> Result<(), FillFault>
        requires { row < self.old.rows }
        ensures rows { self.new.rows ≡ self.old.rows }
        ensures ok { OnOk result (self.new.places ≡ with_place self.old.places (record { row = row; kind = kind })) }
        ensures err { OnErr result (self.new.places ≡ self.old.places) }
        ensures full { result ≡ Err fill_fault.TooMany → IsFullFor self.old.rows self.old.places row kind }
    {
        if self.marks.has(row, kind) {
            return Ok(());
        }
        if self.places.len() >= MOST_CONTEXTS {
            return Err(FillFault::TooMany);
        }
        self.places.push(Place { row, kind })?;
        self.marks.mark(row, kind);
        Ok(())
    }

    /// The types of the places, as the one row of a table.
    #[tactic(auto, unfolding(crate::specs::Founds::has_kind))]
    pub(crate) fn kinds(&self, alloc: Global) -> Result<Marks, Memory>
        ensures size { IfOk result (λ present. length present ≡ 128) }
        ensures kinds { IfOk result (λ present. (kind : ℕ) → kind < 128 → is_marked present 0 kind ≡ has_kind self.now.places kind) }
    {
        let mut present = Marks::new(alloc, 1)?;
        let places = self.places();
        'places: for place in places {
            present.mark(0, place.kind);
        }
        Ok(present)
    }

    /// Whether the types of all places are marked.
    #[tactic(auto, unfolding(crate::specs::Founds::are_present))]
    pub(crate) fn are_present(&self, present: &Marks) -> bool
        ensures value { result ≡ are_present present.now self.now.places }
        ensures inside { All (IsInside self.now.rows) self.now.places }
        ensures few { length self.now.places ≤ 4095 }
    {
        self.places().iter().all(|place| present.has(0, place.kind))
    }

    /// The place that was found at that position, or `None` exactly where fewer were found.
    fn place(&self, at: usize) -> Option<Place>
        ensures value { result ≡ slice_get self.now.places at }
        ensures few { length self.now.places ≤ 4095 }
        ensures inside { IfSome result (IsInside self.now.rows) }
    {
        self.places.as_slice().get(at).copied()
    }

    /// Adds all places to which steps lead from those that were found.
    pub(crate) fn follow(&mut self, steps: &Steps, users: &UserRoles) -> Result<(), FillFault>
        requires { self.old.rows ≡ length users.now }
        ensures rows { self.new.rows ≡ self.old.rows }
        ensures front { HasFront self.new.places self.old.places }
        ensures led { AllLed users.now steps.now.own steps.now.object self.old.places self.new.places }
        ensures ok { OnOk result (AreFollowed users.now steps.now.own steps.now.object self.new.places (length self.new.places)) }
        ensures full { result ≡ Err fill_fault.TooMany → Overflows users.now steps.now.own steps.now.object self.old.places self.new.places }
    {
        let mut at = 0;
        'places: while let Some(place) = self.place(at) {
            self.follow_from(place.row, place.kind, steps, users)?;
            at += 1;
        }
        Ok(())
    }

    // Adds the places to which one step leads from a place.
    fn follow_from(
        &mut self,
        row: u16,
        s: Kind,
        steps: &Steps,
        users: &UserRoles,
    ) -> Result<(), FillFault>
        requires rows { self.old.rows ≡ length users.now }
        requires row { row < self.old.rows }
        ensures rows { self.new.rows ≡ self.old.rows }
        ensures front { HasFront self.new.places self.old.places }
        ensures led { (start : List Place) → Leads users.now steps.now.own steps.now.object start row s
            → AllLed users.now steps.now.own steps.now.object start self.old.places
            → AllLed users.now steps.now.own steps.now.object start self.new.places }
        ensures ok { OnOk result (IsFollowedBelow users.now steps.now.own steps.now.object self.new.places (record { row = row; kind = s }) 128) }
        ensures full { (start : List Place) → Leads users.now steps.now.own steps.now.object start row s
            → result ≡ Err fill_fault.TooMany → Overflows users.now steps.now.own steps.now.object start self.new.places }
    {
        'kinds: for k in 0..steps.bound() {
            self.follow_to(row, s, Kind::at(k), steps, users)?;
        }
        Ok(())
    }

    fn follow_to(
        &mut self,
        row: u16,
        s: Kind,
        kind: Kind,
        steps: &Steps,
        users: &UserRoles,
    ) -> Result<(), FillFault>
        requires rows { self.old.rows ≡ length users.now }
        requires row { row < self.old.rows }
        ensures rows { self.new.rows ≡ self.old.rows }
        ensures front { HasFront self.new.places self.old.places }
        ensures led { (start : List Place) → Leads users.now steps.now.own steps.now.object start row s
            → AllLed users.now steps.now.own steps.now.object start self.old.places
            → AllLed users.now steps.now.own steps.now.object start self.new.places }
        ensures ok { OnOk result (IsFollowedTo users.now steps.now.own steps.now.object self.new.places (record { row = row; kind = s }) kind) }
        ensures full { (start : List Place) → Leads users.now steps.now.own steps.now.object start row s
            → result ≡ Err fill_fault.TooMany → Overflows users.now steps.now.own steps.now.object start self.new.places }
    {
        self.add_where(steps.to_own(s, kind), row, kind)?;
        self.add_where(steps.to_object(s, kind), users.at(row).object, kind)?;
        Ok(())
    }

    fn add_where(&mut self, leads: bool, row: u16, kind: Kind) -> Result<(), FillFault>
        requires { row < self.old.rows }
        ensures rows { self.new.rows ≡ self.old.rows }
        ensures ok { OnOk result (self.new.places ≡ (if leads then with_place self.old.places (record { row = row; kind = kind }) else self.old.places)) }
        ensures err { OnErr result (self.new.places ≡ self.old.places) }
        ensures full { result ≡ Err fill_fault.TooMany → (leads ≡ true) × IsFullFor self.old.rows self.old.places row kind }
    {
        if leads { self.add(row, kind) } else { Ok(()) }
    }
}

/// The table in which just these places are marked.
#[tactic(auto, unfolding(crate::specs::Numbers::has_place))]
fn marks_of(alloc: Global, rows: u16, places: &[Place]) -> Result<Marks, Memory>
    requires { All (IsInside rows) places.now }
    ensures size { IfOk result (λ marks. length marks ≡ rows * 128) }
    ensures shows { IfOk result (λ marks. (row kind : ℕ) → kind < 128 → is_marked marks row kind ≡ has_place places.now row kind) }
{
    let mut marks = Marks::new(alloc, rows)?;
    'places: for place in places {
        marks.mark(place.row, place.kind);
    }
    Ok(marks)
}
