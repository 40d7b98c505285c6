//! A set of types that a walk goes over in few steps.

ghost use Rattle.std.specs.Prelude.{◌≡◌, ℕ, ◌<◌, ◌≤◌, ◌==◌, ◌||◌, true, false, min, slice_index, IfSome};
ghost use Rattle.policy_versions.specs.Sets.{has_place, AreLinks};

use crate::kind::Kind;

/// A set of types by their places. The word at a place is not 0 where that type is in the set. From each place a link
/// leads past places that are not in the set, so that a walk over a small set is short.
#[derive(Clone, Copy)]
pub(crate) struct KindSet {
    pub(crate) words: [u16; 128],
    pub(crate) links: [u8; 129],
    pub(crate) ghost linked: { AreLinks words links },
}

impl KindSet {
    /// The set of no type.
    pub(crate) fn none() -> KindSet
        ensures { (place : ℕ) → has_place result.words place ≡ false }
    {
        KindSet {
            words: [0; 128],
            links: [128; 129],
        }
    }

    /// The set of every type.
    pub(crate) fn every() -> KindSet
        ensures { (place : ℕ) → place < 128 → has_place result.words place ≡ true }
    {
        let mut set = KindSet::none();
        'places: for place in 0..128usize {
            set.add(place);
        }
        set
    }

    /// Whether a type is in the set.
    pub(crate) fn has(&self, kind: Kind) -> bool
        ensures { result ≡ has_place self.now.words kind }
    {
        self.words[usize::from(kind.place())] != 0
    }

    /// The place of the only type in the set, where the links tell that there is no other.
    pub(crate) fn only(&self) -> Option<usize>
        ensures within { IfSome result (λ one. one < 128) }
        ensures alone { IfSome result (λ one. (place : ℕ) → place < 128 → has_place self.now.words place ≡ (one == place)) }
    {
        let first = usize::from(self.links[0]);
        if first < 128 && self.words[first] != 0 && self.links[first + 1] == 128 {
            Some(first)
        } else {
            None
        }
    }

    /// Puts the type at a place into the set.
    pub(crate) fn add(&mut self, at: usize)
        requires { at < 128 }
        ensures { (place : ℕ) → has_place self.new.words place ≡ ((at == place) || has_place self.old.words place) }
    {
        let mut words = self.words;
        words[at] = u16::MAX;
        *self = KindSet {
            words,
            links: links_to(self.links, at),
        };
    }
}

// The links where none leads past a place.
fn links_to(mut links: [u8; 129], at: usize) -> [u8; 129]
    requires { at < 128 }
    ensures to { (place : ℕ) → place ≤ at → slice_index result place ≡ min (slice_index links place) at }
    ensures past { (place : ℕ) → at < place → slice_index result place ≡ slice_index links place }
{
    'places: for place in 0..at + 1 {
        links[place] = links[place].min(at as u8);
    }
    links
}
