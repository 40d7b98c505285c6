//! The calls of a stream in memory, of which listed ones fail.

ghost use Rattle.std.specs.Prelude.{◌≡◌, ◌≤◌, ◌==◌};
ghost use Rattle.std.specs.Bool.{OnTrue, OnFalse};
ghost use Rattle.std.specs.List.{list_any};
ghost use Rattle.flask_io.specs.Streams.{Rose};

use std::marker::Model;

/// The calls of a stream in memory: how many were asked, which of them fail, by their numbers from 1, and how many
/// failed. Both counts stay at the greatest number of 64 bits.
#[derive(Debug)]
pub(crate) struct Calls<'a> {
    asked: u64,
    failing: &'a [u64],
    faults: u64,
}

impl<'a> Model for Calls<'a> {
    ghost use Rattle.std.specs.Prelude.{◌<◌, ◌^◌};
    ghost use Rattle.flask_io.specs.Calls as calls;

    ghost Value = { calls.Calls };

    ghost view = { λ c. record { asked = c.asked; failing = c.failing.now; faults = c.faults } };

    // A count of 64 bits.
    ghost invariant = { λ c. c.faults < 2 ^ 64 };
}

impl Drop for Calls<'_> {
    fn drop(self) {
        let Calls {
            asked: _,
            failing: _,
            faults: _,
        } = self;
    }
}

impl<'a> Calls<'a> {
    ghost use Rattle.flask_io.specs.Calls.{none_of, next_of, failed_of, is_due};

    /// No call yet, of which those with these numbers fail.
    pub(crate) fn new(failing: &'a [u64]) -> Calls<'a>
        ensures { result ≡ none_of failing.now }
    {
        Calls {
            asked: 0,
            failing,
            faults: 0,
        }
    }

    /// Counts one call more, and tells whether it fails, which is counted then.
    pub(crate) fn next_fails(&mut self) -> bool
        ensures due { result ≡ is_due self.old }
        ensures counted { self.new ≡ next_of self.old }
        ensures later { self.old.faults ≤ self.new.faults }
        ensures rose { OnTrue result (Rose self.old.faults self.new.faults) }
        ensures quiet { OnFalse result (self.new.faults ≤ self.old.faults) }
    {
        self.asked = self.asked.saturating_add(1);
        let fails = is_listed(self.failing, self.asked);
        if fails {
            self.fail();
        }
        fails
    }

    /// Counts a failure of the last call.
    pub(crate) fn fail(&mut self)
        ensures counted { self.new ≡ failed_of self.old }
        ensures later { self.old.faults ≤ self.new.faults }
        ensures rose { Rose self.old.faults self.new.faults }
    {
        self.faults = self.faults.saturating_add(1);
    }
}

fn is_listed(failing: &[u64], call: u64) -> bool
    ensures { result ≡ list_any (λ number. number == call) failing.now }
{
    failing.iter().any(|number| *number == call)
}
