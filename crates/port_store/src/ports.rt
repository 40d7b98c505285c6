//! The bound ports and their grants: how they are opened, and what is found in them.

ghost use Rattle.std.specs.Prelude.{◌≡◌, ◌<◌, [], length, IsTrue};
ghost use Rattle.std.specs.FinMap as maps;
ghost use Rattle.std.specs.Option.{option_copied};
ghost use Rattle.access_vectors.specs.Decisions.{Decisions};
ghost use Rattle.access_vectors.specs.declared.phase.Phase.{Phase};
ghost use Rattle.retained_rights.specs.Rules.{Meets};
ghost use Rattle.retained_rights.specs.declared.rule.Rule.{Rule};
ghost use Rattle.port_calls.specs.States.{IsOpening, label_of, opened_with, sid_of};
ghost use Rattle.port_store.specs.Stores.{Safe, state_of, follows};

use crate::labels::label_in;
use crate::queue::Queue;
use crate::table;
use access_vectors::Class;
use flask_sid::Sid;
use port_calls::PortOpening;
use retained_rights::{Callback, Grants, Rule};
use std::alloc::Global;
use std::marker::Model;

/// The bound ports, and a grant for each used slot. Contracts see a value `StoreView`. A change of policy is made on the grants
/// themselves, and leaves what each is for.
#[derive(Drop)]
pub struct Ports<F: Callback> {
    pub(crate) opening: PortOpening,
    pub(crate) table: Vec<Option<Queue>>,
    pub grants: Grants<F>,
}

impl<F: Callback> Model for Ports<F> {
    ghost use Rattle.slot_tables.specs.Slots.{map_of};
    ghost use Rattle.port_store.specs.Stores.{StoreView, IsInStep, view_code};

    ghost Value = { StoreView };

    ghost coded = { view_code };

    ghost view = { λ ports. record { opening = ports.opening; ports = map_of ports.table.items; rights = ports.grants } };

    ghost invariant = { λ ports. IsInStep (record { opening = ports.opening; ports = map_of ports.table.items; rights = ports.grants }) };
}

impl<F: Callback> Ports<F> {
    /// An opening's ports, of which none is bound, with every slot free, and the policy settled at number 0 with version
    /// 0. The callback meets the rule All. It takes no memory.
    pub fn new(alloc: Global, opening: PortOpening, callback: F) -> Ports<F>
        requires { Meets F.may F.gives Rule.All callback }
        ensures opening { result.opening ≡ opening }
        ensures state { state_of result ≡ opened_with opening }
        ensures follows { follows result ≡ maps.empty }
        ensures stale { result.rights.stale ≡ [] }
        ensures settled { result.rights.phase ≡ Phase.Settled 0 0 }
        ensures safe { (d : Decisions) → 0 < d.versions → IsOpening d opening → Safe d result }
    {
        Ports {
            opening,
            table: Vec::new(alloc),
            grants: Grants::new(alloc, Rule::All, Class::Port, callback),
        }
    }

    /// The identifier of a client.
    pub fn sid(&self, client: u8) -> Sid
        requires { client < length self.now.opening.clients }
        ensures sid { result ≡ sid_of (state_of self.now) client }
        ensures known { (d : Decisions) → Safe d self.now → IsTrue (d.known result) }
    {
        self.opening.clients.as_slice()[usize::from(client)]
    }

    /// The label of a port, which its number fixes.
    pub fn label(&self, port: u32) -> Sid
        ensures label { result ≡ label_of self.now.opening port }
        ensures known { (d : Decisions) → Safe d self.now → IsTrue (d.known result) }
    {
        label_in(self.opening.ports.as_slice(), self.opening.initial, port)
    }

    /// What is bound at a port's number, or `None` exactly where nothing is.
    pub fn bound(&self, port: u32) -> Option<&Queue>
        ensures { option_copied result ≡ maps.get self.now.ports port }
    {
        table::bound_at(self.table.as_slice(), port)
    }
}
