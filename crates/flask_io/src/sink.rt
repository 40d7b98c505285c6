//! Where bytes go.

ghost use Rattle.std.specs.Prelude.{◌≡◌, ◌<◌, length};

/// What one write did.
#[derive(Clone, Copy, Debug, PartialEq, Eq)]
pub enum Put {
    /// So many bytes of the piece's front were taken, at least one.
    Took(usize),
    /// The sink's count of faults rose, and nothing was taken.
    Failed,
}

/// Where bytes go.
pub trait Sink {
    ghost use Rattle.std.specs.Prelude.{ℕ, List, Option};
    ghost use Rattle.flask_io.specs.Streams.{Writes, Offers, HasCause};
    ghost use Rattle.flask_io.specs.declared.sink.Put.{Put};

    // The bytes that were written so far, where the sink tells them.
    ghost written: { Self → Option (List ℕ) };

    // The pieces that were offered so far, each as a whole, also those of which a part was taken or nothing, where the sink tells them.
    ghost offered: { Self → Option (List (List ℕ)) };

    // How many faults there were so far.
    ghost faults: { Self → ℕ };

    /// Offers a piece, of which the sink takes some bytes, at least one.
    fn write(&mut self, piece: &[u8]) -> Put
        requires { 0 < length piece.now }
        ensures writes { Writes result (written self.old) (written self.new) piece.now }
        ensures offers { Offers (offered self.old) (offered self.new) piece.now }
        ensures cause { HasCause (faults self.old) (faults self.new) (result ≡ Put.Failed) };
}
