//! Questions with their answers, and what was denied by them, found by types and class.

ghost use Rattle.std.specs.Prelude.{◌≡◌, ◌<◌, ◌++◌, ◌||◌, ◌&&◌, ℕ, false, length, IfOk, OnOk, MatchOption, if◌then◌else◌};
ghost use Rattle.std.specs.List.{position};
ghost use Rattle.std.specs.Str.{bytes_eq};
ghost use Rattle.access_vectors.specs.Table.{Permission, perm_count};
ghost use Rattle.access_vectors.specs.Vectors.{has};
ghost use Rattle.policy_model.specs.Declarations.{is_kind};
ghost use Rattle.policy_model.specs.Kept.{IsWholePolicy};
ghost use Rattle.policy_model.specs.declared.policy.KindLine.{KindLine};
ghost use Rattle.policy_versions.specs.Judging.{context_with};
ghost use Rattle.policy_versions.specs.Kinds.{IsPlaceOf};
ghost use Rattle.policy_versions.specs.Places.{kind_at};
ghost use Rattle.audit_allow.specs.Cells.{AreDenied, cell_key, vector_at};
ghost use Rattle.audit_allow.specs.Denials.{is_about, is_between, is_forbidden};
ghost use Rattle.audit_allow.specs.Grants;

use crate::cells::Cells;
use crate::grant::{Grant, GrantKind};
use crate::names::type_name;
use access_vectors::{Asked, Class, Perm, Vector};
use flask_sid::{Memory, Rows, Sid, SidTable};
use policy_model::{KindLine, PolicyParts, PolicyText};
use std::alloc::Global;
use std::marker::Model;

/// What is learned from: a policy, the contexts of its identifiers, and questions with their answers.
#[derive(Drop)]
pub(crate) struct Denials<'q> {
    policy: &'q PolicyParts,
    sids: &'q SidTable,
    asked: &'q [Asked],
    cells: Cells,
}

impl<'q> Model for Denials<'q> {
    ghost use Rattle.policy_model.specs.Kept.{IsWholePolicy};
    ghost use Rattle.audit_allow.specs.Cells.{AreDenied};
    ghost use Rattle.audit_allow.specs.Denials.{Lesson};

    ghost Value = { Lesson };

    ghost view = { λ it. record { policy = it.policy.now; contexts = it.sids.now; asked = it.asked.now } };

    ghost invariant = { λ it. IsWholePolicy it.policy.now × AreDenied (record { policy = it.policy.now; contexts = it.sids.now; asked = it.asked.now }) it.cells };
}

/// The permissions that questions denied, by types and class.
fn denied_cells(
    alloc: Global,
    policy: &PolicyText,
    sids: &SidTable,
    asked: &[Asked],
) -> Result<Cells, Memory>
    ensures { IfOk result (λ rows. AreDenied (record { policy = policy.now; contexts = sids.now; asked = asked.now }) rows) }
{
    let mut cells = Cells::new(alloc);
    'questions: for question in asked {
        let denied = !question.yes;
        if denied {
            put_asked(&mut cells, policy, sids, question)?;
        }
    }
    Ok(cells)
}

/// Puts the permission of a question into the cell of its types.
fn put_asked(
    cells: &mut Cells,
    policy: &PolicyText,
    sids: &SidTable,
    asked: &Asked,
) -> Result<(), Memory>
    ensures { OnOk result ((s t : ℕ) (perm : Permission) → s < length policy.now.kinds → t < length policy.now.kinds
        → has (vector_at cells.new (cell_key s t perm.class)) perm.index
        ≡ ((is_between sids.now (kind_at policy.now s) (kind_at policy.now t) asked.now && is_about perm asked.now)
        || has (vector_at cells.old (cell_key s t perm.class)) perm.index)) }
{
    let Some(s) = place_of(policy, kind_of(sids, asked.s)) else {
        return Ok(());
    };
    let Some(t) = place_of(policy, kind_of(sids, asked.t)) else {
        return Ok(());
    };
    cells.put(s, t, asked.perm)
}

/// The place of the type that is declared under a name.
fn place_of(policy: &PolicyText, name: &[u8]) -> Option<u8>
    ensures place { MatchOption result (is_kind policy.now.kinds name.now ≡ false) (IsPlaceOf policy.now.kinds name.now) }
    ensures kept { IsWholePolicy policy.now }
{
    let place = place_among(policy.parts().kinds.as_slice(), name)?;
    Some(place as u8)
}

/// The first place at which one of these types has a name.
fn place_among(kinds: &[KindLine], name: &[u8]) -> Option<usize>
    ensures { result ≡ position (λ (kind : KindLine). bytes_eq kind.name name.now) kinds.now }
{
    kinds.iter().position(|kind| kind.name.as_bytes() == name)
}

/// The type of an identifier's context.
fn kind_of(sids: &SidTable, sid: Sid) -> &[u8]
    ensures { result.now ≡ (context_with sids.now sid).kind }
{
    match sids.context(sid) {
        None => &[],
        Some(context) => context.kind.as_bytes(),
    }
}

impl<'q> Denials<'q> {
    /// What is learned from these questions.
    pub(crate) fn of(
        alloc: Global,
        policy: &'q PolicyText,
        sids: &'q SidTable,
        asked: &'q [Asked],
    ) -> Result<Denials<'q>, Memory>
        ensures denials { IfOk result (λ it. it ≡ record { policy = policy.now; contexts = sids.now; asked = asked.now }) }
        ensures kept { IsWholePolicy policy.now }
    {
        let parts = policy.parts();
        let cells = denied_cells(alloc, policy, sids, asked)?;
        Ok(Denials {
            policy: parts,
            sids,
            asked,
            cells,
        })
    }

    /// All grants of a list.
    pub(crate) fn grants(&self, alloc: Global, list: GrantKind) -> Result<Rows<Grant>, Memory>
        ensures { IfOk result (λ grants. grants ≡ Grants.grants list self.now) }
    {
        let mut grants = Rows::new(alloc);
        'sources: for s in 0..self.kind_count() {
            self.put_from(list, s, &mut grants)?;
        }
        Ok(grants)
    }

    /// Puts the grants for a source's type.
    fn put_from(&self, list: GrantKind, s: u8, grants: &mut Rows<Grant>) -> Result<(), Memory>
        requires { s < length self.now.policy.kinds }
        ensures { OnOk result (grants.new ≡ grants.old ++ Grants.grants_from list self.now s) }
    {
        'targets: for t in 0..self.kind_count() {
            self.put_between(list, s, t, grants)?;
        }
        Ok(())
    }

    /// Puts the grants between two types.
    fn put_between(
        &self,
        list: GrantKind,
        s: u8,
        t: u8,
        grants: &mut Rows<Grant>,
    ) -> Result<(), Memory>
        requires source { s < length self.now.policy.kinds }
        requires target { t < length self.now.policy.kinds }
        ensures { OnOk result (grants.new ≡ grants.old ++ Grants.grants_between list self.now s t) }
    {
        let all: &[Class] = &Class::ALL;
        'classes: for class in all {
            let class = *class;
            let perms = self.vector(list, s, t, class);
            if perms != Vector::empty() {
                grants.push(Grant { s, t, class, perms })?;
            }
        }
        Ok(())
    }

    /// The permissions of a class between two types that belong to a list.
    #[tactic(auto, unfolding(crate::specs::Grants::learned_vector))]
    fn vector(&self, list: GrantKind, s: u8, t: u8, class: Class) -> Vector
        requires source { s < length self.now.policy.kinds }
        requires target { t < length self.now.policy.kinds }
        ensures { result ≡ Grants.learned_vector list self.now (kind_at self.now.policy s) (kind_at self.now.policy t) class }
    {
        let mut perms = Vector::empty();
        if self.cells.vector(s, t, class) == perms {
            return perms;
        }
        'indexes: for index in 0..class.perm_count() {
            if self.is_learned(list, s, t, perm_at(class, index)) {
                perms = perms.with(index);
            }
        }
        perms
    }

    /// Whether a permission was denied between two types and belongs to a list.
    #[tactic(auto, unfolding(crate::specs::Grants::is_learned))]
    fn is_learned(&self, list: GrantKind, s: u8, t: u8, perm: Perm) -> bool
        requires source { s < length self.now.policy.kinds }
        requires target { t < length self.now.policy.kinds }
        ensures { result ≡ Grants.is_learned list self.now (kind_at self.now.policy s) (kind_at self.now.policy t) perm }
    {
        self.cells.vector(s, t, perm.class()).has(perm.index())
            && list.takes(self.is_forbidden(s, t, perm))
    }

    /// Whether some `neverallow` line matches a permission between two types.
    #[tactic(auto, unfolding(crate::specs::Denials::is_forbidden))]
    fn is_forbidden(&self, s: u8, t: u8, perm: Perm) -> bool
        ensures { result ≡ is_forbidden self.now.policy (kind_at self.now.policy s) (kind_at self.now.policy t) perm }
    {
        let (s, t) = (type_name(self.policy, s), type_name(self.policy, t));
        self.policy.nevers.as_slice().iter().any(|pattern| self
            .policy
            .matches_permission(pattern, s, t, perm))
    }

    /// How many types are declared: at most 128.
    fn kind_count(&self) -> u8
        ensures { result ≡ length self.now.policy.kinds }
    {
        self.policy.kinds.len() as u8
    }
}

impl GrantKind {
    /// Whether a denied permission belongs to the list, where a `neverallow` line matches it or none does.
    fn takes(self, forbidden: bool) -> bool
        ensures { result ≡ Grants.belongs_to self forbidden }
    {
        match self {
            GrantKind::Allow => !forbidden,
            GrantKind::Refused => forbidden,
        }
    }
}

/// The permission at a place of a class.
fn perm_at(class: Class, index: u8) -> Perm
    requires { index < perm_count class }
    ensures { result ≡ record { class = class; index = index } }
{
    let Some(perm) = Perm::of(class, index) else {
        unreachable!()
    };
    perm
}
