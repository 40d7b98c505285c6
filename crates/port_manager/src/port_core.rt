//! The port manager as a core of histories.

ghost use Rattle.std.specs.Prelude.{◌≡◌, ◌<◌, []};
ghost use Rattle.std.specs.FinMap as maps;
ghost use Rattle.access_vectors.specs.Decisions.{Decisions};
ghost use Rattle.access_vectors.specs.declared.phase.Phase.{Phase};
ghost use Rattle.retained_rights.specs.Rules.{Meets};
ghost use Rattle.retained_rights.specs.declared.rule.Rule.{Rule};
ghost use Rattle.port_calls.specs.States.{IsOpening, opened_with};
ghost use Rattle.port_store.specs.Stores.{Safe, state_of, follows};

use crate::serving::serve;
use access_vectors::{Asker, Decider, Questions, Steps};
use flask_sid::Memory;
use manager_history::Core;
use mode_questions::{Caller, Operation};
use port_calls::{PortCall, PortOpening, PortReply};
use port_store::Ports;
use retained_rights::Callback;
use std::alloc::Global;
use std::marker::Model;
use std::sync::ledger::Ledger;

/// The port manager as a core of histories. Contracts see its ports and rights.
#[derive(Drop)]
pub struct PortCore<F: Callback> {
    ports: Ports<F>,
}

impl<F: Callback> Model for PortCore<F> {
    ghost use Rattle.port_store.specs.Stores.{StoreView, view_code};

    ghost Value = { StoreView };

    ghost coded = { view_code };

    ghost view = { λ core. core.ports };
}

/// The core that an opening gives: no port is bound, every slot is free, and the policy is settled at number 0 with
/// version 0. The callback meets the rule All. It takes no memory.
pub fn new<F: Callback>(alloc: Global, opening: PortOpening, callback: F) -> PortCore<F>
    requires { Meets F.may F.gives Rule.All callback }
    ensures opening { result.opening ≡ opening }
    ensures state { state_of result ≡ opened_with opening }
    ensures follows { follows result ≡ maps.empty }
    ensures stale { result.rights.stale ≡ [] }
    ensures settled { result.rights.phase ≡ Phase.Settled 0 0 }
    ensures fits { (d : Decisions) → 0 < d.versions → IsOpening d opening → Safe d result }
{
    PortCore {
        ports: Ports::new(alloc, opening, callback),
    }
}

impl<F: Callback> Core for PortCore<F> {
    ghost use Rattle.access_vectors.specs.declared.class.Class.TheVariants as class_names;
    ghost use Rattle.port_calls.specs.Honest.{honest_answer, formed_stays};
    ghost use Rattle.port_calls.specs.PlainManager as plainly;
    ghost use Rattle.port_calls.specs.PlainManager.{IsFormed};
    ghost use Rattle.port_calls.specs.States.{PortState, opened_with};
    ghost use Rattle.port_store.specs.Stores as stores;
    ghost use Rattle.port_store.specs.Stores.{Safe, state_of};
    ghost use Rattle.port_store.specs.Laws.{stale_as_defined, follows_named, used_as_followed};

    type Call = PortCall;

    type Reply = PortReply;

    ghost State = { PortState };

    ghost opening = { λ core. opened_with core.opening };

    ghost state = { λ core. state_of core };

    ghost phase = { λ core. core.rights.phase };

    ghost plain = { plainly.answer };

    ghost formed = { λ d state caller call. IsFormed d state caller call };

    ghost denial_of = { plainly.denial_of };

    ghost class = { class_names.Port };

    ghost pair_of = { plainly.pair_of };

    ghost use_of = { plainly.use_of };

    ghost follows = { λ core. stores.follows core };

    ghost followed = { plainly.followed };

    ghost stale = { λ core. core.rights.stale };

    ghost fits = { λ d core. Safe d core };

    fn call<A: Asker>(
        &mut self,
        alloc: Global,
        caller: u8,
        call: &PortCall,
        number: u32,
        asker: &mut A,
        asked: &mut Questions,
    ) -> Result<(PortReply, PortReply), Memory> {
        let caller = Caller::new(alloc, caller, self.ports.sid(caller), number, asker);
        let mut operation = Operation::new(&caller, asker, asked);
        let served = serve(&mut self.ports, &mut operation, call);
        let Operation {
            caller: _,
            asker: _,
            asked: _,
        } = operation;
        Ok(served?.pair())
    }

    fn start<D: Decider>(
        &mut self,
        _alloc: Global,
        decider: &D,
        number: u32,
        old: u8,
        new: u8,
    ) -> Result<u64, Memory> {
        let ports = &mut self.ports;
        ports.grants.start(decider, number, old, new)
    }

    fn revise<D: Decider, L: Ledger>(&mut self, decider: &D, k: u64, steps: &mut Steps<L>) -> u64 {
        let ports = &mut self.ports;
        ports.grants.revise(decider, k, steps)
    }

    fn left(&self) -> u64 {
        let ports = &self.ports;
        ports.grants.left()
    }

    fn settle(&mut self) {
        let ports = &mut self.ports;
        ports.grants.settle();
    }

    ghost honest = { λ d at caller call number version. honest_answer d at caller call number version };

    ghost formed_stays = { λ d at caller call number version other later formed next.
        formed_stays d at caller call number version other later next };

    ghost are_stale = { λ d core fits. stale_as_defined d core fits };

    ghost are_named = { λ d core fits. follows_named d core fits };

    ghost are_used = { λ d core fits. used_as_followed d core fits };
}
