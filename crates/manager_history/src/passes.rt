//! Plain passes: which policy number each caller acts under while it holds one.

ghost use Rattle.std.specs.Prelude.{◌≡◌, ◌<◌, None, Some, replicate, slice_set, IsNone, IsSome};
ghost use Rattle.manager_history.specs.Passing.{pass_of, older_count, count_at};

use std::marker::Model;

/// Plain passes of up to 64 callers, each with a policy number. Contracts see a list of 64 places, by caller, each
/// with the number of the pass that is held there, or none.
#[derive(Debug, Drop)]
pub struct Passes {
    held: [Option<u32>; 64],
}

impl Model for Passes {
    ghost use Rattle.std.specs.Prelude.{ℕ, List, Option};

    ghost Value = { List (Option ℕ) };

    ghost view = { λ passes. passes.held };
}

impl Passes {
    /// No pass is held.
    pub fn new() -> Passes
        ensures { result ≡ replicate 64 None }
    {
        Passes { held: [None; 64] }
    }

    /// Gives a caller a pass of a policy number.
    pub fn enter(&mut self, caller: u8, number: u32)
        requires within { caller < 64 }
        requires free { IsNone (pass_of self.old caller) }
        ensures { self.new ≡ slice_set self.old caller (Some number) }
    {
        self.held[usize::from(caller)] = Some(number);
    }

    /// Takes a caller's pass back.
    pub fn leave(&mut self, caller: u8)
        requires within { caller < 64 }
        requires holds { IsSome (pass_of self.old caller) }
        ensures { self.new ≡ slice_set self.old caller None }
    {
        self.held[usize::from(caller)] = None;
    }

    /// The policy number of the pass that a caller holds, or `None` exactly where the caller holds none.
    pub fn held(&self, caller: u8) -> Option<u32>
        requires { caller < 64 }
        ensures { result ≡ pass_of self.now caller }
    {
        self.held[usize::from(caller)]
    }

    /// How many passes below a policy number are held.
    pub fn older(&self, number: u32) -> u64
        ensures { result ≡ older_count number self.now }
    {
        self.held
            .iter()
            .filter(|held| held.is_some_and(|held| held < number))
            .count() as u64
    }

    /// How many passes of just that policy number are held.
    pub fn at(&self, number: u32) -> u64
        ensures { result ≡ count_at number self.now }
    {
        self.held
            .iter()
            .filter(|held| held.is_some_and(|held| held == number))
            .count() as u64
    }
}
