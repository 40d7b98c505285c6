//! The nodes at each distance from the end.

ghost use Rattle.std.specs.Prelude.{◌≡◌, ◌==◌, true, not, is_some, IfOk, MatchOption};
ghost use Rattle.std.specs.List.{filter};
ghost use Rattle.flow_query.specs.Paths.{graph_of, HasNoPath};
ghost use Rattle.flow_query.specs.Levels.{AreNodes, AreLevelsBelow, first_hop};

use crate::finder::Finder;
use flask_sid::Memory;
use std::alloc::Global;
use std::marker::Model;

/// Nodes at one distance. Contracts see their places.
#[derive(Drop)]
pub(crate) struct Level {
    nodes: Vec<u8>,
}

impl Model for Level {
    ghost use Rattle.std.specs.Prelude.{ℕ, List};

    ghost Value = { List ℕ };

    ghost view = { λ level. level.nodes.items };
}

impl Level {
    /// The nodes.
    pub(crate) fn as_slice(&self) -> &[u8]
        ensures { result.now ≡ self.now }
    {
        self.nodes.as_slice()
    }
}

/// The nodes at each distance from the end that is below the beginning's: `None` exactly where no path leads from the one
/// to the other.
pub(crate) fn levels_below(
    alloc: Global,
    finder: &Finder<'_>,
    from: u8,
    to: u8,
) -> Result<Option<Vec<Level>>, Memory>
    requires from { (graph_of finder.now).node from ≡ true }
    requires to { (graph_of finder.now).node to ≡ true }
    ensures { IfOk result (λ levels. MatchOption levels (HasNoPath (graph_of finder.now) from to)
        (λ levels. AreLevelsBelow (graph_of finder.now) from to levels.items)) }
{
    let mut levels = Vec::new(alloc);
    let mut level = Vec::new(alloc);
    level.push(to)?;
    let nodes = finder.nodes(alloc)?;
    let mut rest = others(alloc, nodes.as_slice(), to)?;
    'levels: while !level.is_empty() {
        if level.contains(&from) {
            return Ok(Some(levels));
        }
        let (nearer, farther) = split(alloc, finder, rest.as_slice(), level.as_slice())?;
        levels.push(Level { nodes: level })?;
        level = nearer;
        rest = farther;
    }
    Ok(None)
}

// The nodes but one.
fn others(alloc: Global, nodes: &[u8], but: u8) -> Result<Vec<u8>, Memory>
    ensures { IfOk result (λ others. others.items ≡ filter (λ node. not (node == but)) nodes.now) }
{
    let mut others = Vec::new(alloc);
    'nodes: for node in nodes {
        if *node != but {
            others.push(*node)?;
        }
    }
    Ok(others)
}

// The nodes of which a hop leads into a level, and the others.
fn split(
    alloc: Global,
    finder: &Finder<'_>,
    rest: &[u8],
    level: &[u8],
) -> Result<(Vec<u8>, Vec<u8>), Memory>
    requires rest { AreNodes (graph_of finder.now) rest.now }
    requires level { AreNodes (graph_of finder.now) level.now }
    ensures nearer { IfOk result (λ parts. parts.0.items ≡ filter (λ from. is_some (first_hop ((graph_of finder.now).hop from) level.now)) rest.now) }
    ensures farther { IfOk result (λ parts. parts.1.items ≡ filter (λ from. not (is_some (first_hop ((graph_of finder.now).hop from) level.now))) rest.now) }
{
    let mut nearer = Vec::new(alloc);
    let mut farther = Vec::with_capacity(alloc, rest.len())?;
    'rest: for from in rest {
        if finder.first_hop(*from, level).is_some() {
            nearer.push(*from)?;
        } else {
            farther.push(*from)?;
        }
    }
    Ok((nearer, farther))
}
