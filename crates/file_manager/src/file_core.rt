//! The file manager as a core of histories.

ghost use Rattle.std.specs.Prelude.{◌≡◌, ◌<◌, [], IfOk};
ghost use Rattle.std.specs.FinMap as maps;
ghost use Rattle.access_vectors.specs.Decisions.{Decisions};
ghost use Rattle.access_vectors.specs.declared.phase.Phase.{Phase};
ghost use Rattle.retained_rights.specs.Rules.{Meets};
ghost use Rattle.retained_rights.specs.declared.rule.Rule.{Rule};
ghost use Rattle.file_calls.specs.Openings.{AreNodes, IsOpening};
ghost use Rattle.file_calls.specs.States.{opened_with};
ghost use Rattle.file_store.specs.Stores.{Safe, state_of, follows};

use crate::serving::serve;
use access_vectors::{Asker, Decider, Questions, Steps};
use file_calls::{FileCall, FileOpening, FileReply};
use file_store::Files;
use flask_sid::Memory;
use manager_history::Core;
use mode_questions::{Caller, Operation};
use retained_rights::Callback;
use std::alloc::Global;
use std::marker::Model;
use std::sync::ledger::Ledger;

/// The file manager as a core of histories. Contracts see its files and rights.
#[derive(Drop)]
pub struct FileCore<F: Callback> {
    files: Files<F>,
}

impl<F: Callback> Model for FileCore<F> {
    ghost use Rattle.file_store.specs.Stores.{StoreView, view_code};

    ghost Value = { StoreView };

    ghost coded = { view_code };

    ghost view = { λ core. core.files };
}

/// The core that an opening gives: its nodes stand in the tree, every slot is free, and the policy is settled at number 0
/// with version 0. The callback meets the rule Each.
pub fn new<F: Callback + Drop>(
    alloc: Global,
    opening: FileOpening,
    callback: F,
) -> Result<FileCore<F>, Memory>
    requires callback { Meets F.may F.gives Rule.Each callback }
    requires nodes { AreNodes opening.nodes }
    ensures opening { IfOk result (λ core. core.opening ≡ opening) }
    ensures state { IfOk result (λ core. state_of core ≡ opened_with opening) }
    ensures follows { IfOk result (λ core. follows core ≡ maps.empty) }
    ensures stale { IfOk result (λ core. core.rights.stale ≡ []) }
    ensures settled { IfOk result (λ core. core.rights.phase ≡ Phase.Settled 0 0) }
    ensures fits { IfOk result (λ core. (d : Decisions) → 0 < d.versions → IsOpening d opening → Safe d core) }
{
    let files = Files::new(alloc, opening, callback)?;
    Ok(FileCore { files })
}

impl<F: Callback> Core for FileCore<F> {
    ghost use Rattle.access_vectors.specs.declared.class.Class.TheVariants.{File};
    ghost use Rattle.file_calls.specs.Honest.{honest_answer, formed_stays};
    ghost use Rattle.file_calls.specs.PlainManager as plainly;
    ghost use Rattle.file_calls.specs.PlainManager.{IsFormed};
    ghost use Rattle.file_calls.specs.States.{FileState, opened_with};
    ghost use Rattle.file_store.specs.Stores as stores;
    ghost use Rattle.file_store.specs.Stores.{Safe, state_of};
    ghost use Rattle.file_store.specs.Laws.{stale_as_defined, follows_named, used_as_followed};

    type Call = FileCall;

    type Reply = FileReply;

    ghost State = { FileState };

    ghost opening = { λ core. opened_with core.opening };

    ghost state = { λ core. state_of core };

    ghost phase = { λ core. core.rights.phase };

    ghost plain = { plainly.answer };

    ghost formed = { λ d state caller call. IsFormed d state caller call };

    ghost denial_of = { plainly.denial_of };

    ghost class = { File };

    ghost pair_of = { plainly.pair_of };

    ghost use_of = { plainly.use_of };

    ghost follows = { λ core. stores.follows core };

    ghost followed = { plainly.followed };

    ghost stale = { λ core. core.rights.stale };

    ghost fits = { λ d core. Safe d core };

    fn call<A: Asker>(
        &mut self,
        alloc: Global,
        caller: u8,
        call: &FileCall,
        number: u32,
        asker: &mut A,
        asked: &mut Questions,
    ) -> Result<(FileReply, FileReply), Memory> {
        let caller = Caller::new(alloc, caller, self.files.sid(caller), number, asker);
        let mut operation = Operation::new(&caller, asker, asked);
        let served = serve(&mut self.files, &mut operation, call);
        let Operation {
            caller: _,
            asker: _,
            asked: _,
        } = operation;
        Ok(served?.pair())
    }

    fn start<D: Decider>(
        &mut self,
        _alloc: Global,
        decider: &D,
        number: u32,
        old: u8,
        new: u8,
    ) -> Result<u64, Memory> {
        let files = &mut self.files;
        files.grants.start(decider, number, old, new)
    }

    fn revise<D: Decider, L: Ledger>(&mut self, decider: &D, k: u64, steps: &mut Steps<L>) -> u64 {
        let files = &mut self.files;
        files.grants.revise(decider, k, steps)
    }

    fn left(&self) -> u64 {
        let files = &self.files;
        files.grants.left()
    }

    fn settle(&mut self) {
        let files = &mut self.files;
        files.grants.settle();
    }

    ghost honest = { λ d at caller call number version. honest_answer d at caller call number version };

    ghost formed_stays = { λ d at caller call number version other later formed next.
        formed_stays d at caller call number version other later next };

    ghost are_stale = { λ d core fits. stale_as_defined d core fits };

    ghost are_named = { λ d core fits. follows_named d core fits };

    ghost are_used = { λ d core fits. used_as_followed d core fits };
}
