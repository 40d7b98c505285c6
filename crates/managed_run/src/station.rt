//! A station: how it is opened and closed, and what callers do there besides calls.

ghost use Rattle.std.specs.Prelude.{◌≡◌, ◌↔◌, [], ◌∷◌, ◌++◌, length, IsTrue, IfOk, OnOk, OnErr, IsErr};
ghost use Rattle.std.specs.FinMap as maps;
ghost use Rattle.epoch_gate.specs.Seats.{IsOfGate, key_of};
ghost use Rattle.epoch_gate.specs.Known.{decider_of, seats_allowed, HasPass, HasNoPass, IsIdle, quota_left, keys_served, seats_made, seats_retired, vector_for};
ghost use Rattle.epoch_gate.specs.Calls.{HasEntered, HasLeft, IsNew, HasMade, HasRetired, IsFirst};
ghost use Rattle.epoch_gate.specs.Opening.{refusal, IsRefused};
ghost use Rattle.epoch_gate.specs.Opening;
ghost use Rattle.avc_rows.specs.Checks.{IsSame, IsShown};
ghost use Rattle.access_vectors.specs.Stale.{AreNamed};
ghost use Rattle.managed_run.specs.Kinds.{kind_of, phase_of};
ghost use Rattle.managed_run.specs.Calls.{IsSound};
ghost use Rattle.managed_run.specs.Ends.{HasEndedWith};

use crate::docket::{CoreDocket, Docket};
use access_vectors::{Class, Decider};
use avc_rows::Checked;
use epoch_gate::{Admin, Gate, GateFault, Seat, SeatFault, Spent};
use flask_sid::Sid;
use manager_history::{Core, Keeper};
use std::alloc::Global;
use std::marker::Model;
use std::snapshot::Snapshot;

/// A manager behind its gate, with the gate's cache. Contracts see the gate: its decider, what it was opened with, and how
/// many seats, entries of a seat and policy numbers there may be.
#[derive(Drop)]
pub struct Station<'d, C: Core + Drop, D: Decider> {
    pub(crate) gate: Gate<'d, CoreDocket<'d, C, D>, D>,
}

impl<'d, C: Core + Drop, D: Decider> Model for Station<'d, C, D> {
    ghost use Rattle.epoch_gate.specs.Seats.{Site};
    ghost use Rattle.managed_run.specs.declared.docket.Opened.{Opened};

    ghost Value = { Site D (Opened C) };

    ghost view = { λ station. station.gate };
}

fn is_outside(n: u32, most: u32) -> bool
    ensures { result ≡ Opening.is_outside n most }
{
    n == 0 || n > most
}

/// Why there is no gate of these numbers, where there is a reason.
fn refused(seats: u8, quota: u32, most: u32) -> Option<GateFault>
    ensures { result ≡ refusal seats quota most }
{
    if is_outside(u32::from(seats), 64) {
        return Some(GateFault::Seats(seats));
    }
    if is_outside(quota, 536_870_912) {
        return Some(GateFault::Quota(quota));
    }
    if is_outside(most, 1_048_575) {
        return Some(GateFault::Most(most));
    }
    None
}

impl<'d, C: Core + Drop, D: Decider> Station<'d, C, D> {
    /// A station over a keeper that did nothing yet, with its administrator. After a refusal the keeper is given up.
    pub fn new(
        alloc: Global,
        keeper: Keeper<'d, C, D>,
        decider: &'d D,
        seats: u8,
        quota: u32,
        most: u32,
    ) -> Result<(Station<'d, C, D>, Admin<CoreDocket<'d, C, D>, D>), GateFault>
        requires fresh { keeper.history ≡ [] }
        requires decider { keeper.decider ≡ decider.now }
        requires unused { maps.entries (C.follows keeper.core) ≡ [] }
        ensures refused { IsRefused result (refusal seats quota most) }
        ensures fixed { IfOk result (λ made. made.0.fixed ≡ record {
          decider = decider.now;
          opening = record { core = keeper.entry.core; manager = keeper.entry.manager };
          seats = seats;
          quota = quota;
          most = most;
        }) }
        ensures admin { IfOk result (λ made. IsOfGate made.0 made.1 × IsFirst made.0 made.1) }
    {
        let _lawful = keeper.entries();
        let first = Snapshot::of(keeper.core());
        let Ok(kept) = Box::new(alloc, Docket { keeper, first }) else {
            return Err(refused(seats, quota, most).unwrap_or(GateFault::Memory));
        };
        let docket = CoreDocket { kept, decider };
        let (gate, admin) = Gate::new(alloc, docket, decider, seats, quota, most)?;
        Ok((Station { gate }, admin))
    }

    /// A new seat, numbered in the order of making. `Full` exactly where as many were made as the station may have.
    pub fn seat(
        &self,
        admin: &mut Admin<CoreDocket<'d, C, D>, D>,
    ) -> Result<Seat<CoreDocket<'d, C, D>, D>, SeatFault>
        requires { IsOfGate self.now admin.old }
        ensures seat { IfOk result (λ seat. IsOfGate self.now seat × IsNew admin.old seat) }
        ensures ok { OnOk result (HasMade admin.old admin.new) }
        ensures full { IsErr result ↔ (seats_made admin.old ≡ seats_allowed self.now) }
        ensures err { OnErr result (admin.new ≡ admin.old) }
        ensures gate { IsOfGate self.now admin.new }
    {
        self.gate.seat(admin)
    }

    /// Gives the seat a pass, with the number and version that one step finds. `Spent` exactly where no entering is left.
    pub fn enter(&self, seat: &mut Seat<CoreDocket<'d, C, D>, D>) -> Result<(), Spent>
        requires gate { IsOfGate self.now seat.old }
        requires out { HasNoPass seat.old }
        ensures ok { OnOk result (HasEntered kind_of seat.old seat.new) }
        ensures pass { OnOk result (HasPass seat.new) }
        ensures spent { IsErr result ↔ (quota_left seat.old ≡ 0) }
        ensures err { OnErr result (seat.new ≡ seat.old) }
        ensures gate { IsOfGate self.now seat.new }
    {
        self.gate.enter(seat)
    }

    /// Takes the seat's pass back, with one step on the counter of its number's parity.
    pub fn leave(&self, seat: &mut Seat<CoreDocket<'d, C, D>, D>)
        requires gate { IsOfGate self.now seat.old }
        requires pass { HasPass seat.old }
        ensures left { HasLeft seat.old seat.new }
        ensures gate { IsOfGate self.now seat.new }
    {
        self.gate.leave(seat);
    }

    /// The decider's vector of a key for the version of the seat's pass, from the cache where the key's row has it under the
    /// pass's number.
    pub fn check(
        &self,
        seat: &mut Seat<CoreDocket<'d, C, D>, D>,
        s: Sid,
        t: Sid,
        c: Class,
    ) -> Checked
        requires gate { IsOfGate self.now seat.old }
        requires pass { HasPass seat.old }
        requires source { IsTrue ((D.decides (decider_of self.now)).known s) }
        requires target { IsTrue ((D.decides (decider_of self.now)).known t) }
        ensures vector { result.vector ≡ vector_for D.decides self.now seat.old (key_of s t c) }
        ensures origin { IsShown (key_of s t c) seat.old seat.new result.vector result.origin }
        ensures served { keys_served seat.new ≡ keys_served seat.old ++ key_of s t c ∷ [] }
        ensures same { IsSame seat.old seat.new }
        ensures gate { IsOfGate self.now seat.new }
    {
        avc_rows::check(&self.gate, seat, s, t, c)
    }

    /// Ends a seat. Its number is never used again. The administrator then has the seat's own entries.
    pub fn retire(
        &self,
        seat: Seat<CoreDocket<'d, C, D>, D>,
        admin: &mut Admin<CoreDocket<'d, C, D>, D>,
    )
        requires gate { IsOfGate self.now admin.old }
        requires seat { IsOfGate self.now seat }
        requires out { HasNoPass seat }
        requires idle { IsIdle seat }
        ensures retired { HasRetired admin.old seat.entry admin.new }
        ensures gate { IsOfGate self.now admin.new }
    {
        self.gate.retire(seat, admin);
    }

    /// Ends the station once every seat is retired, and gives the keeper. Its history has for each retired number exactly
    /// the entries of its seat, and where it is settled every used slot follows the settled number.
    pub fn close(self, admin: Admin<CoreDocket<'d, C, D>, D>) -> Keeper<'d, C, D>
        requires gate { IsOfGate self admin }
        requires out { seats_made admin ≡ length (seats_retired admin) }
        requires idle { IsIdle admin }
        ensures ended { HasEndedWith admin.entry result.history }
        ensures decider { result.decider ≡ decider_of self.entry }
        ensures manager { result.manager ≡ self.entry.fixed.opening.manager }
        ensures opening { C.opening result.core ≡ C.opening self.entry.fixed.opening.core }
        ensures phase { result.phase ≡ phase_of result.history }
        ensures named { AreNamed result.phase (C.follows result.core) }
        ensures sound { IsSound C.plain C.formed C.denial_of (D.decides (decider_of self.entry)) (C.opening self.entry.fixed.opening.core) result.history }
    {
        let CoreDocket { kept, decider: _ } = self.gate.close(admin);
        let Docket { keeper, first: _ } = Box::into_inner(kept);
        let _kept = keeper.entries();
        keeper
    }
}
