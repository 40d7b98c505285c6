//! The way through the levels, from the beginning to the end.

ghost use Rattle.std.specs.Prelude.{◌≡◌, true, IfOk};
ghost use Rattle.flow_query.specs.Paths.{graph_of, IsAnswer};
ghost use Rattle.flow_query.specs.Levels.{AreLevelsBelow};

use crate::finder::Finder;
use crate::hop::Hop;
use crate::levels::Level;
use flask_sid::Memory;
use std::alloc::Global;

/// From the beginning hop by hop to the first node that is nearer.
pub(crate) fn walk(
    alloc: Global,
    finder: &Finder<'_>,
    mut levels: Vec<Level>,
    from: u8,
    to: u8,
) -> Result<Vec<Hop>, Memory>
    requires from { (graph_of finder.now).node from ≡ true }
    requires levels { AreLevelsBelow (graph_of finder.now) from to levels.items }
    ensures { IfOk result (λ hops. IsAnswer (graph_of finder.now) from to hops.items) }
{
    let mut hops = Vec::with_capacity(alloc, levels.len())?;
    let mut at = from;
    'levels: while let Some(level) = levels.pop() {
        let Some(hop) = finder.first_hop(at, level.as_slice()) else {
            unreachable!()
        };
        let next = hop.to;
        hops.push(hop)?;
        at = next;
    }
    Ok(hops)
}
