//! A first policy text.

ghost use Rattle.std.specs.Prelude.{◌≡◌};
ghost use Rattle.policy_text.specs.Example.{AnswersOfSmallest, smallest_text};

/// A policy text of one type that lets it search and read what is of its own type: a first example.
pub fn smallest() -> &'static str
    ensures text { result.now ≡ smallest_text }
    ensures answers { AnswersOfSmallest result.now }
{
    "policy 1\ncontext u:r:t\nversion\nallow t t file read\nallow t t dir search\n"
}
