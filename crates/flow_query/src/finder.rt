//! Where hops are found: the graph of a version, as the compiled rows tell it.

ghost use Rattle.std.specs.Prelude.{◌≡◌, ◌<◌, true, false, None, IfOk};
ghost use Rattle.policy_versions.specs.Compiling.{IsCatalogueOf, sids_of};
ghost use Rattle.flow_query.specs.Routes;
ghost use Rattle.flow_query.specs.Hops;
ghost use Rattle.flow_query.specs.Paths.{graph_of};
ghost use Rattle.flow_query.specs.Levels.{AreNodes, AreAllNodes, first_hop};

use crate::hop::Hop;
use crate::nodes::marks_of;
use crate::reach::type_at;
use crate::route::{Kind, Route, Way};
use crate::words::Reach;
use access_vectors::Perm;
use flask_sid::{Memory, SidTable};
use policy_model::PolicyText;
use policy_versions::{Catalogue, VectorRows};
use std::alloc::Global;
use std::marker::Model;

/// The graph of a version. Contracts see its nodes and its hops. Marks tell which types are nodes, and words between which
/// of them no hop leads.
#[derive(Drop)]
pub(crate) struct Finder<'p> {
    policy: &'p PolicyText,
    sids: &'p SidTable,
    rows: &'p VectorRows,
    routes: &'p [Route],
    version: u8,
    kind: Kind,
    marks: [u16; 128],
    writing: Reach,
    reading: Reach,
}

impl<'p> Model for Finder<'p> {
    ghost use Rattle.std.specs.Prelude.{◌≡◌};
    ghost use Rattle.policy_versions.specs.Vectors.{AreVectorsOf};
    ghost use Rattle.flow_query.specs.Routes;
    ghost use Rattle.flow_query.specs.Paths.{Query};
    ghost use Rattle.flow_query.specs.Reaches.{AreMarks, Tells};
    ghost use Rattle.flow_query.specs.declared.route.Way.TheVariants.{Writing, Reading};

    ghost Value = { Query };

    ghost view = { λ finder. record { policy = finder.policy.now; contexts = finder.sids.now; version = finder.version; kind = finder.kind } };

    ghost invariant = { λ finder. AreVectorsOf finder.policy.now finder.rows.now × (finder.routes.now ≡ Routes.routes finder.kind)
        × AreMarks finder.policy.now finder.sids.now finder.marks × Tells finder.writing finder.rows.now finder.version finder.routes.now Writing
        × Tells finder.reading finder.rows.now finder.version finder.routes.now Reading };
}

impl<'p> Finder<'p> {
    /// The graph of a version of a policy, which was compiled, by the routes of a kind.
    pub(crate) fn new(
        alloc: Global,
        policy: &'p PolicyText,
        catalogue: &'p Catalogue,
        routes: &'p [Route],
        asked: (u8, Kind),
    ) -> Result<Finder<'p>, Memory>
        requires compiled { IsCatalogueOf policy.now catalogue.now }
        requires routes { routes.now ≡ Routes.routes asked.1 }
        ensures { IfOk result (λ finder. finder ≡ record { policy = policy.now; contexts = sids_of catalogue.now; version = asked.0; kind = asked.1 }) }
    {
        let (version, kind) = asked;
        let rows = catalogue.vectors();
        let writing = Reach::of(alloc, rows, version, routes, Way::Writing)?;
        let reading = Reach::of(alloc, rows, version, routes, Way::Reading)?;
        Ok(Finder {
            policy,
            sids: catalogue.sids(),
            rows,
            routes,
            version,
            kind,
            marks: marks_of(policy, catalogue),
            writing,
            reading,
        })
    }
}

impl Finder<'_> {
    /// The nodes, in the order of declaration.
    pub(crate) fn nodes(&self, alloc: Global) -> Result<Vec<u8>, Memory>
        ensures { IfOk result (λ nodes. AreAllNodes (graph_of self.now) nodes.items) }
    {
        let mut nodes = Vec::new(alloc);
        'places: for place in 0..self.policy.parts().kinds.len() {
            if self.marks[place] != 0 {
                nodes.push(place as u8)?;
            }
        }
        Ok(nodes)
    }

    /// The first hop from a node into a level.
    pub(crate) fn first_hop(&self, from: u8, level: &[u8]) -> Option<Hop>
        requires from { (graph_of self.now).node from ≡ true }
        requires level { AreNodes (graph_of self.now) level.now }
        ensures { result ≡ first_hop ((graph_of self.now).hop from) level.now }
    {
        'level: for to in level {
            if let Some(hop) = self.hop(from, *to) {
                return Some(hop);
            }
        }
        None
    }

    // The hop from one node to another, if there is one.
    #[tactic(auto, unfolding(crate::specs::Hops::hop_between))]
    fn hop(&self, from: u8, to: u8) -> Option<Hop>
        requires from { (graph_of self.now).node from ≡ true }
        requires to { (graph_of self.now).node to ≡ true }
        ensures { result ≡ (graph_of self.now).hop from to }
    {
        if !self.may_lead(from, to) {
            return None;
        }
        self.routes
            .iter()
            .find(|route| self.is_open(from, to, **route))
            .map(|route| hop_along(from, to, *route))
    }

    // Whether a hop may lead from one node to another: where not, none does.
    fn may_lead(&self, from: u8, to: u8) -> bool
        requires from { (graph_of self.now).node from ≡ true }
        requires to { (graph_of self.now).node to ≡ true }
        ensures { result ≡ false → (graph_of self.now).hop from to ≡ None }
    {
        let _declared = self.policy.parts();
        self.writing.meets(from, to) || self.reading.meets(to, from)
    }

    // Whether the version allows the question by which a route leads from one node to another.
    #[tactic(auto, unfolding(crate::specs::Hops::hop_along))]
    fn is_open(&self, from: u8, to: u8, route: Route) -> bool
        requires from { (graph_of self.now).node from ≡ true }
        requires to { (graph_of self.now).node to ≡ true }
        ensures { result ≡ Hops.is_open self.now.policy self.now.version from to route }
    {
        let (perm, way) = route;
        match way {
            Way::Writing => self.allows(from, to, perm),
            Way::Reading => self.allows(to, from, perm),
        }
    }

    // Whether the version allows a permission of one node on another.
    #[tactic(auto, unfolding(crate::specs::Hops::is_allowed))]
    fn allows(&self, s: u8, t: u8, perm: Perm) -> bool
        requires source { (graph_of self.now).node s ≡ true }
        requires target { (graph_of self.now).node t ≡ true }
        ensures { result ≡ Hops.is_allowed self.now.policy self.now.version s t perm }
    {
        let _declared = self.policy.parts();
        self.rows
            .cell(self.version, type_at(s), type_at(t), perm.class())
            .has(perm.index())
    }
}

#[tactic(auto, unfolding(crate::specs::Hops::hop_along))]
fn hop_along(from: u8, to: u8, route: Route) -> Hop
    ensures { result ≡ Hops.hop_along from to route }
{
    let (perm, way) = route;
    let (s, t) = match way {
        Way::Writing => (from, to),
        Way::Reading => (to, from),
    };
    Hop {
        from,
        to,
        s,
        t,
        perm,
    }
}
