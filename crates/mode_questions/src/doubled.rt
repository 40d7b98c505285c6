//! A reply twice: once for the history, and once for the caller.

ghost use Rattle.std.specs.Prelude.{◌≡◌};

use std::marker::Model;

/// Two equal replies. Contracts see the one that they are.
#[derive(Drop)]
pub struct Doubled<R> {
    history: R,
    caller: R,
}

impl<R> Model for Doubled<R> {
    ghost use Rattle.std.specs.Prelude.{◌≡◌};

    ghost Value = { R };

    ghost view = { λ doubled. doubled.history };

    ghost invariant = { λ doubled. doubled.caller ≡ doubled.history };
}

impl<R> Doubled<R> {
    /// A reply and an equal one.
    #[inline(always)]
    pub fn of(history: R, caller: R) -> Doubled<R>
        requires { caller ≡ history }
        ensures { result ≡ history }
    {
        Doubled { history, caller }
    }

    /// The two.
    #[inline(always)]
    pub fn pair(self) -> (R, R)
        ensures history { result.0 ≡ self }
        ensures caller { result.1 ≡ self }
    {
        let Doubled { history, caller } = self;
        (history, caller)
    }
}
