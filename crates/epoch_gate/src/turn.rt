//! Turns: tickets are drawn and served in order, and the value goes from hand to hand.
ghost use Rattle.std.specs.Prelude.{◌≡◌, Some, None, [], ◌∷◌, ◌++◌, length};
ghost use Rattle.std.specs.FinMap as maps;
ghost use Rattle.gate_rule.specs.declared.view.Trace.{Trace};
ghost use Rattle.gate_rule.specs.declared.view.Ticket.TheVariants.{Drawn};
ghost use Rattle.gate_rule.specs.History.{of_caller, IsOrdered};
ghost use Rattle.gate_rule.specs.Views.{IsLive, item_of};
ghost use Rattle.gate_rule.specs.Views;
ghost use Rattle.gate_rule.specs.Told.{Takes, Stands, IsNamed};
ghost use Rattle.epoch_gate.specs.Seats.{IsAt, IsOfGate};
ghost use Rattle.epoch_gate.specs.Known.{IsIdle, HasTurn, seen_by, own_entries, caller_number, pass_held, slots_followed, found_last};
ghost use Rattle.epoch_gate.specs.Known.{older_shown, stale_found, stale_left, slots_given, turns_had};
ghost use Rattle.epoch_gate.specs.Calls.{HasLookedUntil, HasWaited, HasTaken, HasGiven, LearnsAsCaller, LearnsAsAdmin};
ghost use Rattle.epoch_gate.specs.Calls.{ExtendsAsCaller, ExtendsAsAdmin, IsValueOf, IsSameCaller, IsSameAdmin, StoodWaiting, StoodAt};

use crate::admin::Admin;
use crate::gate::Gate;
use crate::seat::Seat;
use crate::steps;
use access_vectors::Decider;
use crossbeam_utils::Backoff;
use gate_rule::{Journal, Place, Words};
use std::sync::Wait;

fn wait_for_turn<V: Journal<D>, D: Decider, R: Wait>(
    rt: &R,
    words: &Words<V, D>,
    place: &mut Place<V, D>,
    ticket: u64,
) -> V
    requires table { IsAt words.now.table_id place.old.table_id }
    requires seat { IsLive place.old.me.0.role × (place.old.me.0.ticket ≡ Drawn ticket) × (place.old.me.1 ≡ []) }
    ensures table { place.new.table_id ≡ place.old.table_id }
    ensures turn { place.new.me ≡ (record (Views.took V.means result place.old.me.0 ticket) { trace = place.new.me.0.trace }, (0, None) ∷ []) }
    ensures waited { HasLookedUntil place.old.me.0.trace ticket place.new.me.0.trace }
    ensures learns { Takes V.means place.old.me.0 result }
    ensures rule { (trace : Trace) × Stands V.means D.decides (record place.old.me.0 { trace = trace }) 4 ticket }
{
    let backoff = Backoff::new();
    for _ in rt.forever() {
        if let Some(value) = steps::poll(words, place, ticket) {
            return value;
        }
        backoff.snooze();
    }
    unreachable!()
}

impl<'d, V: Journal<D>, D: Decider> Gate<'d, V, D> {
    /// Waits for the turn, and gives the value.
    pub fn take<R: Wait>(&self, rt: &R, seat: &mut Seat<V, D>) -> V
        requires gate { IsOfGate self.now seat.old }
        requires idle { IsIdle seat.old }
        ensures took { HasTaken V.means seat.old seat.new result }
        ensures waited { HasWaited seat.old seat.new }
        ensures turn { HasTurn seat.new }
        ensures learns { LearnsAsCaller V.means seat.old result }
        ensures named { IsNamed V.means.kind (pass_held seat.old) (V.means.history result) }
        ensures ordered { IsOrdered V.means.kind (V.means.history result) }
        ensures seen { seen_by seat.new ≡ V.means.history result }
        ensures follows { slots_followed seat.new ≡ maps.entries (V.means.follows result) }
        ensures mine { own_entries seat.new ≡ own_entries seat.old }
        ensures turns { turns_had seat.new ≡ turns_had seat.old }
        ensures same { IsSameCaller seat.old seat.new }
        ensures rule { StoodWaiting V.means D.decides self.now seat.old seat.new }
        ensures value { IsValueOf V.means self.now result }
        ensures gate { IsOfGate self.now seat.new }
    {
        let ticket = steps::draw(&self.table.shared, &mut seat.place);
        wait_for_turn(rt, &self.table.shared, &mut seat.place, ticket)
    }

    /// Puts the value back, with at most one entry more, and passes the turn on.
    pub fn give(&self, seat: &mut Seat<V, D>, value: V)
        requires gate { IsOfGate self.now seat.old }
        requires turn { HasTurn seat.old }
        requires history { ExtendsAsCaller V.means.kind seat.old (V.means.history value) }
        requires value { IsValueOf V.means self.now value }
        ensures gave { HasGiven V.means seat.old seat.new value }
        ensures mine { own_entries seat.new ≡ of_caller V.means.kind (caller_number seat.old) (V.means.history value) }
        ensures seen { seen_by seat.new ≡ V.means.history value }
        ensures follows { slots_followed seat.new ≡ slots_followed seat.old }
        ensures turns { turns_had seat.new ≡ turns_had seat.old ++ item_of V.means seat.old.view value ∷ [] }
        ensures same { IsSameCaller seat.old seat.new }
        ensures idle { IsIdle seat.new }
        ensures rule { StoodAt V.means D.decides self.now seat.old 4 (found_last seat.new) }
        ensures gate { IsOfGate self.now seat.new }
    {
        steps::give(&self.table.shared, &mut seat.place, value);
    }

    /// Waits for the turn, and gives the value.
    pub fn take_admin<R: Wait>(&self, rt: &R, admin: &mut Admin<V, D>) -> V
        requires gate { IsOfGate self.now admin.old }
        requires idle { IsIdle admin.old }
        ensures took { HasTaken V.means admin.old admin.new result }
        ensures waited { HasWaited admin.old admin.new }
        ensures turn { HasTurn admin.new }
        ensures learns { LearnsAsAdmin V.means admin.old result }
        ensures ordered { IsOrdered V.means.kind (V.means.history result) }
        ensures seen { seen_by admin.new ≡ V.means.history result }
        ensures found { stale_found admin.new ≡ length (V.means.stale result) }
        ensures shown { older_shown admin.new ≡ None }
        ensures turns { turns_had admin.new ≡ turns_had admin.old }
        ensures same { IsSameAdmin admin.old admin.new }
        ensures rule { StoodWaiting V.means D.decides self.now admin.old admin.new }
        ensures value { IsValueOf V.means self.now result }
        ensures gate { IsOfGate self.now admin.new }
    {
        let ticket = steps::draw(&self.table.shared, &mut admin.place);
        wait_for_turn(rt, &self.table.shared, &mut admin.place, ticket)
    }

    /// Puts the value back, with at most one entry more, and passes the turn on.
    pub fn give_admin(&self, admin: &mut Admin<V, D>, value: V)
        requires gate { IsOfGate self.now admin.old }
        requires turn { HasTurn admin.old }
        requires history { ExtendsAsAdmin V.means.kind admin.old (V.means.history value) }
        requires value { IsValueOf V.means self.now value }
        ensures gave { HasGiven V.means admin.old admin.new value }
        ensures seen { seen_by admin.new ≡ V.means.history value }
        ensures found { stale_found admin.new ≡ stale_found admin.old }
        ensures left { stale_left admin.new ≡ length (V.means.stale value) }
        ensures given { slots_given admin.new ≡ maps.entries (V.means.follows value) }
        ensures turns { turns_had admin.new ≡ turns_had admin.old ++ item_of V.means admin.old.view value ∷ [] }
        ensures same { IsSameAdmin admin.old admin.new }
        ensures idle { IsIdle admin.new }
        ensures rule { StoodAt V.means D.decides self.now admin.old 4 (found_last admin.new) }
        ensures gate { IsOfGate self.now admin.new }
    {
        steps::give(&self.table.shared, &mut admin.place, value);
    }
}
