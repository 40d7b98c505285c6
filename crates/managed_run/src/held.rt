//! A station with its administrator, as a manager whose policy is changed.

ghost use Rattle.std.specs.Prelude.{◌≡◌, ◌+◌, ◌-◌, ◌<◌, All, min};
ghost use Rattle.epoch_gate.specs.Seats.{IsOfGate};
ghost use Rattle.epoch_gate.specs.Known.{IsIdle, seats_made, turns_had, stale_found, stale_left};
ghost use Rattle.managed_run.specs.Changes.{HasTurnedNone, StaysClear, KeepsSeats, IsClear};

use crate::docket::CoreDocket;
use crate::station::Station;
use access_vectors::{Decider, Steps};
use epoch_gate::Admin;
use managed::Managed;
use manager_history::{Ack, Core, NotifyFault};
use std::alloc::Global;
use std::marker::{Brand, Model};
use std::sync::Wait;
use std::sync::ledger::{Blank, Ledger};

/// A station with its administrator. Contracts see both. The type keeps that the administrator is the station's and has not
/// the turn, and that where it made no seat each of its turns found no stale slot and no older pass.
#[derive(Drop)]
pub struct Held<'s, 'd, C: Core + Drop, D: Decider> {
    station: &'s Station<'d, C, D>,
    admin: Admin<CoreDocket<'d, C, D>, D>,
}

impl<'s, 'd, C: Core + Drop, D: Decider> Model for Held<'s, 'd, C, D> {
    ghost use Rattle.managed_run.specs.Administering.{Holding, IsHolding};

    ghost Value = { Holding C D C.Call C.Reply };

    ghost view = { λ held. record { site = held.station.now; admin = held.admin } };

    ghost invariant = { λ held. IsHolding (record { site = held.station.now; admin = held.admin }) };
}

impl<'s, 'd, C: Core + Drop, D: Decider> Held<'s, 'd, C, D> {
    /// A station with its administrator.
    pub fn new(
        station: &'s Station<'d, C, D>,
        admin: Admin<CoreDocket<'d, C, D>, D>,
    ) -> Held<'s, 'd, C, D>
        requires gate { IsOfGate station.now admin }
        requires idle { IsIdle admin }
        requires clear { seats_made admin ≡ 0 → All IsClear (turns_had admin) }
        ensures { result ≡ record { site = station.entry.now; admin = admin.entry } }
    {
        Held { station, admin }
    }

    /// The administrator again. Where it made no seat, each of its turns found no stale slot and no older pass.
    pub fn release(self) -> Admin<CoreDocket<'d, C, D>, D>
        ensures admin { result ≡ self.entry.admin }
        ensures gate { IsOfGate self.entry.site result }
        ensures idle { IsIdle result }
        ensures clear { seats_made result ≡ 0 → All IsClear (turns_had result) }
    {
        let Held { station: _, admin } = self;
        admin
    }
}

/// An update under a ledger: the blank's, which counts the steps.
fn update_counted<'d, C: Core + Drop, D: Decider, R: Wait, L: Ledger>(
    station: &Station<'d, C, D>,
    rt: &R,
    admin: &mut Admin<CoreDocket<'d, C, D>, D>,
    k: u64,
    blank: Blank,
) -> u64
    requires name { blank.name ≡ L.name }
    requires parts { blank.parts ≡ L.parts }
    requires some { 0 < L.parts }
    requires gate { IsOfGate station.now admin.old }
    requires idle { IsIdle admin.old }
    ensures left { (result ≡ stale_left admin.new) × (result ≡ stale_found admin.new - min k (stale_found admin.new)) }
    ensures turned { HasTurnedNone admin.old admin.new }
    ensures clear { StaysClear admin.old admin.new }
    ensures seats { KeepsSeats admin.old admin.new }
    ensures idle { IsIdle admin.new }
    ensures gate { IsOfGate station.now admin.new }
{
    let mut steps = Steps::<L>::new(blank);
    station.update(rt, admin, k, &mut steps)
}

/// Each call is the station's, and may wait for its turn.
impl<'s, 'd, C: Core + Drop, D: Decider> Managed for Held<'s, 'd, C, D> {
    ghost use Rattle.std.specs.Prelude.{refl};
    ghost use Rattle.std.proofs.Common.{◌∙◌};
    ghost use Rattle.managed_run.specs.Administering.{seen_of, IsSameHolding};

    ghost seen = { seen_of D.decides };

    ghost same = { IsSameHolding };

    fn notify<R: Wait>(&mut self, rt: &R, alloc: Global, ver: u8) -> Result<u32, NotifyFault> {
        self.station.notify(rt, alloc, &mut self.admin, ver)
    }

    fn update<R: Wait>(&mut self, rt: &R, k: u64) -> u64 {
        update_counted::<C, D, R, Brand>(self.station, rt, &mut self.admin, k, Blank::new(1))
    }

    fn acknowledge<R: Wait>(&mut self, rt: &R) -> Ack {
        self.station.acknowledge(rt, &mut self.admin)
    }

    fn force<R: Wait>(&mut self, rt: &R) -> Ack {
        self.station.acknowledge_force(rt, &mut self.admin)
    }

    ghost reflexive = { λ a. record { site = refl; made = refl; retired = refl } };

    ghost transitive = { λ a b c ab bc. record { site = bc.site ∙ ab.site; made = bc.made ∙ ab.made; retired = bc.retired ∙ ab.retired } };
}
