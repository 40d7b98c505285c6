//! What `flow` and `enter` find in a policy.

ghost use Rattle.std.specs.Prelude.{◌≡◌, true, IfOk, IfSome};
ghost use Rattle.std.specs.List.{position};
ghost use Rattle.std.specs.Str.{bytes_eq};
ghost use Rattle.policy_model.specs.declared.policy.KindLine.{KindLine};
ghost use Rattle.policy_versions.specs.Compiling.{IsCatalogueOf, sids_of};
ghost use Rattle.flow_query.specs.Hops.{is_node as is_node_of};
ghost use Rattle.flaskd_run.specs.Paths;

use command_line::PathAsked;
use flask_sid::{Memory, Name, SidTable};
use flow_query::{Kind, Path, is_node, shortest};
use policy_model::{KindLine, PolicyText};
use policy_versions::Catalogue;
use std::alloc::Global;

/// What is found where a path between two types is asked for.
#[derive(Debug, Drop)]
pub enum PathAnswer {
    /// The policy has no such version.
    NoVersion,
    /// No context has a type of that name.
    NoType(Name),
    /// No path leads from the one to the other.
    NoPath,
    /// The shortest path, and of those the first.
    Found(Path),
}

/// Finds what is asked in a policy that was compiled: the version is looked at first, then the beginning, then the end.
pub fn find(
    alloc: Global,
    policy: &PolicyText,
    catalogue: &Catalogue,
    kind: Kind,
    asked: &PathAsked,
) -> Result<PathAnswer, Memory>
    requires { IsCatalogueOf policy.now catalogue.now }
    ensures { IfOk result (Paths.IsFound policy.now (sids_of catalogue.now) kind asked.now) }
{
    if asked.version >= policy.parts().versions.len() as u64 {
        return Ok(PathAnswer::NoVersion);
    }
    let Some(from) = node_named(policy, catalogue.sids(), &asked.from) else {
        return Ok(PathAnswer::NoType(asked.from.copy(alloc)?));
    };
    let Some(to) = node_named(policy, catalogue.sids(), &asked.to) else {
        return Ok(PathAnswer::NoType(asked.to.copy(alloc)?));
    };
    match shortest(
        alloc,
        policy,
        catalogue,
        asked.version as u8,
        from,
        to,
        kind,
    )? {
        None => Ok(PathAnswer::NoPath),
        Some(path) => Ok(PathAnswer::Found(path)),
    }
}

/// The node of that name: its place among the declared types, where some context has the type.
#[tactic(auto, unfolding(crate::specs::Paths::node_named))]
fn node_named(policy: &PolicyText, sids: &SidTable, name: &Name) -> Option<u8>
    ensures value { result ≡ Paths.node_named policy.now sids.now name.now }
    ensures node { IfSome result (λ place. is_node_of policy.now sids.now place ≡ true) }
{
    let place = place_named(policy.parts().kinds.as_slice(), name)?;
    if is_node(policy, sids, place) {
        Some(place as u8)
    } else {
        None
    }
}

/// The place of the type that is declared under a name.
fn place_named(kinds: &[KindLine], name: &Name) -> Option<usize>
    ensures { result ≡ position (λ (kind : KindLine). bytes_eq kind.name name.now) kinds.now }
{
    kinds.iter().position(|kind| kind.name == *name)
}
