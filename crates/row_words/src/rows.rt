//! The words of cache rows, and the place of a key's row.

ghost use Rattle.std.specs.Prelude.{◌≡◌, ℕ, ◌<◌, ◌⊎◌, ◌↔◌, Some, None, IfSome, IsNone};
ghost use Rattle.access_vectors.specs.declared.class.Class.{Class as AnyClass};
ghost use Rattle.row_words.specs.Words;

use access_vectors::{Class, Vector};
use flask_sid::Sid;

/// How many rows a cache has.
pub const ROWS: usize = 512;

/// The word of a cached answer: under a policy number, source and target have this vector of this class.
pub fn row_word(number: u32, s: Sid, t: Sid, c: Class, v: Vector) -> u64
    requires { number < 1048576 }
    ensures word { result ≡ Words.row_word number s t c v }
    ensures fields { Words.IsRow number s t v }
{
    u64::from(number) * 17_592_186_044_416
        + u64::from(s.number()) * 4_294_967_296
        + u64::from(t.number()) * 1_048_576
        + u64::from(c.code()) * 65_536
        + u64::from(v.bits())
}

/// The answer that a word shows, or `None` exactly where a source or target is 0 or the class code is not 1 to 5.
#[tactic(auto, unfolding(access_vectors::specs::Table::class_coded))]
pub fn split_row(w: u64) -> Option<(u32, Sid, Sid, Class, Vector)>
    ensures fields { result ≡ Words.split_row w }
    ensures returns { (number s t v : ℕ) (c : AnyClass) → Words.IsRow number s t v → w ≡ Words.row_word number s t c v
        → result ≡ Some (number, s, t, c, v) }
    ensures none { IsNone result ↔ Words.IsNoRow w }
{
    let s = Sid::of((w / 4_294_967_296 % 4096) as u16)?;
    let t = Sid::of((w / 1_048_576 % 4096) as u16)?;
    let c = Class::of_code((w / 65_536 % 16) as u8)?;
    Some((
        (w / 17_592_186_044_416) as u32,
        s,
        t,
        c,
        Vector::of((w % 65_536) as u16),
    ))
}

/// The row in which the answers for a key stand, below 512.
pub fn row_place(s: Sid, t: Sid, c: Class) -> usize
    ensures place { result ≡ Words.row_place s t c }
    ensures within { result < 512 }
    ensures sids { Words.AreSids s t }
{
    (31 * usize::from(s.number()) + 7 * usize::from(t.number()) + usize::from(c.code())) % ROWS
}
