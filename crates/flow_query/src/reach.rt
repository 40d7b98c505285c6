//! Which types may do something to which by the routes of one way: rows of words, found by one pass over a version's vectors.

ghost use Rattle.std.specs.Prelude.{◌≡◌, ℕ, ◌<◌, false, bit_and, IfOk};
ghost use Rattle.std.specs.List.{All};
ghost use Rattle.policy_versions.specs.Vectors.{vector_at};
ghost use Rattle.flow_query.specs.Reaches.{is_met, HasRoute, Tells};

use crate::route::{Route, Way};
use crate::words::{Reach, Words};
use access_vectors::{Class, Vector};
use flask_sid::Memory;
use policy_versions::{Kind as Type, VectorRows};
use std::alloc::Global;

impl Reach {
    /// What a version allows by the routes that go one way.
    pub(crate) fn of(
        alloc: Global,
        vectors: &VectorRows,
        version: u8,
        routes: &[Route],
        way: Way,
    ) -> Result<Reach, Memory>
        ensures { IfOk result (λ reach. Tells reach vectors.now version routes.now way) }
    {
        let file = perms_of(routes, Class::File, way);
        let dir = perms_of(routes, Class::Dir, way);
        let process = perms_of(routes, Class::Process, way);
        let port = perms_of(routes, Class::Port, way);
        let security = perms_of(routes, Class::Security, way);
        let rows = vec![in alloc; Words::none(); 128]?;
        let mut reach = Reach { rows };
        reach.join(vectors, version, Class::File, file);
        reach.join(vectors, version, Class::Dir, dir);
        reach.join(vectors, version, Class::Process, process);
        reach.join(vectors, version, Class::Port, port);
        reach.join(vectors, version, Class::Security, security);
        Ok(reach)
    }

    /// Whether the word of a source and a target is not 0.
    pub(crate) fn meets(&self, s: u8, t: u8) -> bool
        requires source { s < 128 }
        requires target { t < 128 }
        ensures { result ≡ is_met self.now s t }
    {
        self.rows[usize::from(s)].words[usize::from(t)] != 0
    }

    // Joins what a version allows by some permissions of a class.
    fn join(&mut self, vectors: &VectorRows, version: u8, class: Class, perms: Vector)
        ensures { (s t : ℕ) → s < 128 → t < 128 → is_met self.new s t ≡ false
            → (is_met self.old s t ≡ false) × (bit_and (vector_at vectors.now version s t class) perms ≡ 0) }
    {
        let bits = perms.bits();
        if bits == 0 {
            return;
        }
        'sources: for s in 0..128usize {
            match vectors.row(version, type_at(s as u8), class) {
                None => {}
                Some(row) => {
                    let words = &mut self.rows[s];
                    words.join(row, bits);
                }
            }
        }
    }
}

// The permissions of a class by which routes go a way.
fn perms_of(routes: &[Route], class: Class, way: Way) -> Vector
    ensures { All (HasRoute class way result) routes.now }
{
    let mut perms = Vector::empty();
    'routes: for route in routes {
        let (perm, _) = *route;
        if is_of(*route, class, way) {
            perms = perms.with(perm.index());
        }
    }
    perms
}

// Whether a route asks for a permission of a class and goes a way.
fn is_of(route: Route, class: Class, way: Way) -> bool
    ensures { result ≡ false → route.0.class ≡ class → route.1 ≡ way → ⊥ }
{
    let (perm, by) = route;
    perm.class() == class && by == way
}

/// The type at a place.
pub(crate) fn type_at(place: u8) -> Type
    requires { place < 128 }
    ensures { result ≡ place }
{
    match Type::of(usize::from(place)) {
        Some(found) => found,
        None => unreachable!(),
    }
}
