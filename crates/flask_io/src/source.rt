//! Where bytes come from.

ghost use Rattle.std.specs.Prelude.{◌≡◌, ◌<◌, length};

/// What one read gives.
#[derive(Clone, Copy, Debug, PartialEq, Eq)]
pub enum Got {
    /// So many bytes, at least one, at the front of the buffer.
    Bytes(usize),
    /// Nothing is left.
    End,
    /// The source's count of faults rose, and nothing was taken.
    Failed,
}

/// Where bytes come from.
pub trait Source {
    ghost use Rattle.std.specs.Prelude.{ℕ, List, Option};
    ghost use Rattle.flask_io.specs.Streams.{Reads, HasCause};
    ghost use Rattle.flask_io.specs.declared.source.Got.{Got};

    // The bytes still to come, where the source tells them.
    ghost left: { Self → Option (List ℕ) };

    // How many faults there were so far.
    ghost faults: { Self → ℕ };

    /// Reads some bytes into the front of the buffer, at least one where any is left.
    fn read(&mut self, buf: &mut [u8]) -> Got
        requires { 0 < length buf.old }
        ensures reads { Reads result (left self.old) (left self.new) buf.new }
        ensures cause { HasCause (faults self.old) (faults self.new) (result ≡ Got.Failed) };
}
