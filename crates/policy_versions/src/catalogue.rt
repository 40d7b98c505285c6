//! The compiled policy, which decides for each version by the identifiers of its contexts.

ghost use Rattle.std.specs.Prelude.{◌≡◌, ◌+◌, ◌*◌, ◌<◌, ◌≤◌, IsTrue, length};
ghost use Rattle.std.specs.List.{All};
ghost use Rattle.access_vectors.specs.Decisions.{IsClosed};
ghost use Rattle.policy_versions.specs.Numbers.{object_row};
ghost use Rattle.policy_versions.specs.Founds.{IsInside};
ghost use Rattle.policy_versions.specs.Identifiers.{cell_in};
ghost use Rattle.policy_versions.specs.Judging.{is_sid};
ghost use Rattle.policy_versions.specs.Tables.{place_with, decisions_by};

use crate::contexts::Contexts;
use crate::given::GivenRows;
use crate::kind::Kind;
use crate::place::Place;
use crate::steps::takes_after_maker;
use crate::vectors::VectorRows;
use access_vectors::{Class, Decider, Vector};
use flask_sid::{Sid, SidTable};
use policy_model::Labelling;

/// A compiled policy: what its versions decide, by the identifiers of its contexts. No question takes memory.
#[derive(Drop)]
pub struct Catalogue {
    pub(crate) versions: u16,
    pub(crate) contexts: Contexts,
    pub(crate) vectors: VectorRows,
    pub(crate) given: GivenRows,
    ghost closed: { IsClosed (decisions_by versions contexts vectors given) },
    ghost placed: { length contexts.places.items ≡ length contexts.sids },
    ghost inside: { All (IsInside (length contexts.users)) contexts.places.items },
}

impl Catalogue {
    /// The contexts of the identifiers: the declared ones in their order, and then the others in byte order of their texts.
    pub fn sids(&self) -> &SidTable
        ensures { result.now ≡ self.now.contexts.sids }
    {
        &self.contexts.sids
    }

    /// The vectors of all versions, by the places of types.
    pub fn vectors(&self) -> &VectorRows
        ensures { result.now ≡ self.now.vectors }
    {
        &self.vectors
    }

    /// Whether an identifier is one of the catalogue's.
    pub fn knows(&self, sid: Sid) -> bool
        ensures { result ≡ is_sid (length self.now.contexts.sids) sid }
    {
        usize::from(sid.number()) <= self.contexts.sids.len()
    }

    /// The type of an identifier's context, by its place among the declared types.
    pub fn kind(&self, sid: Sid) -> Kind
        requires { IsTrue (is_sid (length self.now.contexts.sids) sid) }
        ensures { result ≡ (place_with self.now.contexts sid).kind }
    {
        self.place(sid).kind
    }

    fn place(&self, sid: Sid) -> &Place
        requires { IsTrue (is_sid (length self.now.contexts.sids) sid) }
        ensures value { result.now ≡ place_with self.now.contexts sid }
        ensures inside { IsInside (length self.now.contexts.users) result.now }
    {
        &self.contexts.places[usize::from(sid.number()) - 1]
    }

    fn object_row(&self, place: &Place) -> u16
        requires { IsInside (length self.now.contexts.users) place.now }
        ensures { result ≡ object_row self.now.contexts.users place.now.row }
    {
        self.contexts.users.at(place.row).object
    }

    fn sid_at(&self, row: u16, kind: Kind) -> Sid
        requires { IsTrue (is_sid 4095 (cell_in self.now.contexts.cells.items row kind)) }
        ensures { result ≡ cell_in self.now.contexts.cells.items row kind }
    {
        let cell = usize::from(row) * 128 + usize::from(kind.place());
        let number = match self.contexts.cells.get(cell) {
            Some(number) => *number,
            None => 0,
        };
        match Sid::of(number) {
            Some(sid) => sid,
            None => unreachable!(),
        }
    }
}

impl Decider for Catalogue {
    ghost use Rattle.policy_versions.specs.Tables.{decisions_by};

    ghost decides = { λ catalogue. decisions_by catalogue.versions catalogue.contexts catalogue.vectors catalogue.given };

    #[tactic(auto, unfolding(crate::specs::Tables::decisions_by))]
    fn versions(&self) -> u16 {
        self.versions
    }

    #[tactic(auto, unfolding(crate::specs::Tables::decisions_by))]
    fn vector(&self, ver: u8, s: Sid, t: Sid, c: Class) -> Vector {
        self.vectors.cell(ver, self.kind(s), self.kind(t), c)
    }

    #[tactic(auto, unfolding(crate::specs::Tables::decisions_by))]
    fn label(&self, ver: u8, s: Sid, t: Sid, c: Class) -> Sid {
        let source = self.place(s);
        let target = self.kind(t);
        let made = self
            .given
            .given(Labelling::Transition, ver, source.kind, target, c);
        if takes_after_maker(c) {
            self.sid_at(source.row, made.unwrap_or(source.kind))
        } else {
            self.sid_at(self.object_row(source), made.unwrap_or(target))
        }
    }

    #[tactic(auto, unfolding(crate::specs::Tables::decisions_by))]
    fn member(&self, ver: u8, s: Sid, t: Sid, c: Class) -> Sid {
        let source = self.place(s);
        match self
            .given
            .given(Labelling::Member, ver, source.kind, self.kind(t), c)
        {
            None => t,
            Some(kind) => self.sid_at(self.object_row(source), kind),
        }
    }

    ghost closed = { λ catalogue. catalogue.closed };
}
