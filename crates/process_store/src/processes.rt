//! The processes and their grants: how they are opened, and what is found in them.

ghost use Rattle.std.specs.Prelude.{◌≡◌, ◌<◌, [], length, nat_lt, IsTrue, IfSome};
ghost use Rattle.std.specs.FinMap as maps;
ghost use Rattle.access_vectors.specs.Decisions.{Decisions};
ghost use Rattle.access_vectors.specs.declared.phase.Phase.{Phase};
ghost use Rattle.retained_rights.specs.Rules.{Meets};
ghost use Rattle.retained_rights.specs.declared.rule.Rule.{Rule};
ghost use Rattle.process_calls.specs.States.{IsOpening, opened_with, sid_of, process_limit};
ghost use Rattle.process_store.specs.Stores.{Safe, state_of, follows};

use access_vectors::Class;
use flask_sid::Sid;
use process_calls::{Process, ProcessOpening};
use retained_rights::{Callback, Grants, Rule};
use slot_tables::Table;
use std::alloc::Global;
use std::marker::Model;

/// How many processes may be kept.
const PROCESS_LIMIT: u32 = 4096;

/// The processes by their numbers, how many they are, and a grant for each used slot. Contracts see a value `StoreView`. A change
/// of policy is made on the grants themselves, and leaves what each is for.
#[derive(Drop)]
pub struct Processes<F: Callback> {
    pub(crate) opening: ProcessOpening,
    pub(crate) table: Table<Process>,
    pub(crate) kept: u32,
    pub grants: Grants<F>,
}

impl<F: Callback> Model for Processes<F> {
    ghost use Rattle.slot_tables.specs.Slots.{map_of};
    ghost use Rattle.process_store.specs.Stores.{StoreView, IsCounted, view_code};

    ghost Value = { StoreView };

    ghost coded = { view_code };

    ghost view = { λ store. record { opening = store.opening; processes = map_of store.table; rights = store.grants } };

    ghost invariant = { λ store. IsCounted store.kept (record { opening = store.opening; processes = map_of store.table; rights = store.grants }) };
}

impl<F: Callback + Drop> Processes<F> {
    /// The processes of an opening: none. Every slot is free, and the policy is settled at number 0 with version 0. The
    /// callback meets the rule All. It takes no memory.
    pub fn new(alloc: Global, opening: ProcessOpening, callback: F) -> Processes<F>
        requires callback { Meets F.may F.gives Rule.All callback }
        ensures opening { result.opening ≡ opening }
        ensures state { state_of result ≡ opened_with opening }
        ensures follows { follows result ≡ maps.empty }
        ensures stale { result.rights.stale ≡ [] }
        ensures settled { result.rights.phase ≡ Phase.Settled 0 0 }
        ensures safe { (d : Decisions) → 0 < d.versions → IsOpening d opening → Safe d result }
    {
        Processes {
            opening,
            table: Table::new(alloc),
            kept: 0,
            grants: Grants::new(alloc, Rule::All, Class::Process, callback),
        }
    }
}

impl<F: Callback> Processes<F> {
    /// The identifier of a client.
    pub fn sid(&self, client: u8) -> Sid
        requires { client < length self.now.opening.clients }
        ensures sid { result ≡ sid_of (state_of self.now) client }
        ensures known { (d : Decisions) → Safe d self.now → IsTrue (d.known result) }
    {
        self.opening.clients.as_slice()[usize::from(client)]
    }

    /// The process of a number, if there is one.
    pub fn process(&self, pid: u32) -> Option<Process>
        ensures is { result ≡ maps.get self.now.processes pid }
        ensures known { (d : Decisions) → Safe d self.now → IfSome result (λ process. IsTrue (d.known process.label)) }
    {
        self.table.get(pid)
    }

    /// Whether one process more may be kept.
    pub fn has_room(&self) -> bool
        ensures { result ≡ nat_lt (maps.len self.now.processes) process_limit }
    {
        self.kept < PROCESS_LIMIT
    }
}
