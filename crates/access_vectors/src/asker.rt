//! What a manager asks: a decider at one version.

ghost use Rattle.std.specs.Prelude.{◌≡◌, ℕ, ◌<◌, IsTrue, List, Option};
ghost use Rattle.access_vectors.specs.Decisions.{Decisions, IsClosed};
ghost use Rattle.access_vectors.specs.Asking.{Key, with_key, counted, Alike};

use crate::class::Class;
use crate::vector::Vector;
use flask_sid::Sid;

/// A decider at one version, as an object manager asks it: by way of a cache, or plainly. Decider and version
/// never change.
pub trait Asker {
    /// All that its decider decides.
    ghost decides: { Self → Decisions };

    /// The version that it asks for, below the decider's number of versions.
    ghost version: { Self → ℕ };

    /// How many questions were put to it, as far as 64 bits count.
    ghost asks: { Self → ℕ };

    /// The keys that were looked up, where it keeps a cache and tells them.
    ghost keys: { Self → Option (List Key) };

    /// Nothing but what asking changes differs between the two values.
    ghost same: { Self → Self → Type 0 };

    /// The version that it asks for.
    fn version(&self) -> u8
        ensures { result ≡ version self.now };

    /// How many questions were put to it. The count stays at the greatest number of 64 bits.
    fn asks(&self) -> u64
        ensures { result ≡ asks self.now };

    /// The permissions of a class that a source has on a target. A cache looks this key up.
    fn vector(&mut self, s: Sid, t: Sid, c: Class) -> Vector
        requires source { IsTrue ((decides self.old).known s) }
        requires target { IsTrue ((decides self.old).known t) }
        ensures answer { result ≡ (decides self.old).vector (version self.old) s t c }
        ensures same { same self.old self.new }
        ensures decides { decides self.new ≡ decides self.old }
        ensures version { version self.new ≡ version self.old }
        ensures asks { asks self.new ≡ counted (asks self.old) }
        ensures keys { keys self.new ≡ with_key (keys self.old) s t c };

    /// The label of a new object of a class that a source makes at a target.
    fn label(&mut self, s: Sid, t: Sid, c: Class) -> Sid
        requires source { IsTrue ((decides self.old).known s) }
        requires target { IsTrue ((decides self.old).known t) }
        ensures answer { result ≡ (decides self.old).label (version self.old) s t c }
        ensures same { same self.old self.new }
        ensures decides { decides self.new ≡ decides self.old }
        ensures version { version self.new ≡ version self.old }
        ensures asks { asks self.new ≡ counted (asks self.old) }
        ensures keys { keys self.new ≡ keys self.old };

    /// The member of a set of objects of a class that a source is led to.
    fn member(&mut self, s: Sid, t: Sid, c: Class) -> Sid
        requires source { IsTrue ((decides self.old).known s) }
        requires target { IsTrue ((decides self.old).known t) }
        ensures answer { result ≡ (decides self.old).member (version self.old) s t c }
        ensures same { same self.old self.new }
        ensures decides { decides self.new ≡ decides self.old }
        ensures version { version self.new ≡ version self.old }
        ensures asks { asks self.new ≡ counted (asks self.old) }
        ensures keys { keys self.new ≡ keys self.old };

    /// The permissions in any version of the decider, past the cache.
    fn vector_at(&mut self, ver: u8, s: Sid, t: Sid, c: Class) -> Vector
        requires version { ver < (decides self.old).versions }
        requires source { IsTrue ((decides self.old).known s) }
        requires target { IsTrue ((decides self.old).known t) }
        ensures answer { result ≡ (decides self.old).vector ver s t c }
        ensures same { same self.old self.new }
        ensures decides { decides self.new ≡ decides self.old }
        ensures version { version self.new ≡ version self.old }
        ensures asks { asks self.new ≡ counted (asks self.old) }
        ensures keys { keys self.new ≡ keys self.old };

    /// Each value is the same as itself.
    ghost reflexive: { (a : Self) → same a a };

    /// What is the same as the same is the same.
    ghost transitive: { (a b c : Self) → same a b → same b c → same a c };

    /// Decider and version of values that are the same are equal.
    ghost alike: { (a b : Self) → same a b → Alike decides version a b };

    /// The version is one of the decider's.
    ghost below: { (a : Self) → version a < (decides a).versions };

    /// What its decider decides holds together.
    ghost closed: { (a : Self) → IsClosed (decides a) };
}
