//! The shortest path.

ghost use Rattle.std.specs.Prelude.{◌≡◌, ◌<◌, true, length, IfOk, MatchOption};
ghost use Rattle.policy_versions.specs.Compiling.{IsCatalogueOf, sids_of};
ghost use Rattle.flow_query.specs.Hops.{is_node};
ghost use Rattle.flow_query.specs.Paths.{graph_of, IsAnswer, HasNoPath};

use crate::finder::Finder;
use crate::hop::Path;
use crate::levels::levels_below;
use crate::route::{ENTRIES, FLOWS, Kind, Route};
use crate::way::walk;
use flask_sid::Memory;
use policy_model::PolicyText;
use policy_versions::Catalogue;
use std::alloc::Global;

/// The shortest path from one type to another under a version of a policy, and of those the first by its nodes in the order of
/// declaration; `None` exactly where no path leads from the one to the other. Types are given by their places among the
/// declared ones, and versions by their numbers, both counted from 0; the catalogue is the policy's.
pub fn shortest(
    alloc: Global,
    p: &PolicyText,
    c: &Catalogue,
    ver: u8,
    from: u8,
    to: u8,
    kind: Kind,
) -> Result<Option<Path>, Memory>
    requires compiled { IsCatalogueOf p.now c.now }
    requires version { ver < length p.now.versions }
    requires from { is_node p.now (sids_of c.now) from ≡ true }
    requires to { is_node p.now (sids_of c.now) to ≡ true }
    ensures { let graph = graph_of (record { policy = p.now; contexts = sids_of c.now; version = ver; kind = kind }) in
        IfOk result (λ found. MatchOption found (HasNoPath graph from to) (IsAnswer graph from to)) }
{
    let (flows, entries) = (FLOWS, ENTRIES);
    let routes: &[Route] = match kind {
        Kind::Flow => &flows,
        Kind::Enter => &entries,
    };
    let finder = Finder::new(alloc, p, c, routes, (ver, kind))?;
    match levels_below(alloc, &finder, from, to)? {
        None => Ok(None),
        Some(levels) => Ok(Some(Path::of(walk(alloc, &finder, levels, from, to)?))),
    }
}
