//! What decides.

ghost use Rattle.std.specs.Prelude.{◌≡◌, ◌<◌, IsTrue};
ghost use Rattle.access_vectors.specs.Decisions.{Decisions, IsClosed};

use crate::class::Class;
use crate::vector::Vector;
use flask_sid::Sid;

/// What decides: the policy versions of a text, or a stand-in. Contracts see all that it decides as one value.
/// No call takes memory.
pub trait Decider {
    /// All that it decides.
    ghost decides: { Self → Decisions };

    /// How many versions there are, from 1 to 256.
    fn versions(&self) -> u16
        ensures { result ≡ (decides self.now).versions };

    /// The permissions of a class that a source has on a target, in a version.
    fn vector(&self, ver: u8, s: Sid, t: Sid, c: Class) -> Vector
        requires version { ver < (decides self.now).versions }
        requires source { IsTrue ((decides self.now).known s) }
        requires target { IsTrue ((decides self.now).known t) }
        ensures { result ≡ (decides self.now).vector ver s t c };

    /// The label of a new object of a class that a source makes at a target, in a version.
    fn label(&self, ver: u8, s: Sid, t: Sid, c: Class) -> Sid
        requires version { ver < (decides self.now).versions }
        requires source { IsTrue ((decides self.now).known s) }
        requires target { IsTrue ((decides self.now).known t) }
        ensures { result ≡ (decides self.now).label ver s t c };

    /// The member of a set of objects of a class that a source is led to, in a version.
    fn member(&self, ver: u8, s: Sid, t: Sid, c: Class) -> Sid
        requires version { ver < (decides self.now).versions }
        requires source { IsTrue ((decides self.now).known s) }
        requires target { IsTrue ((decides self.now).known t) }
        ensures { result ≡ (decides self.now).member ver s t c };

    /// What it decides holds together.
    ghost closed: { (d : Self) → IsClosed (decides d) };
}
