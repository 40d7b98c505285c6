//! How the program ends, and the exit code of each end.

ghost use Rattle.std.specs.Prelude.{◌≡◌};
ghost use Rattle.flaskd_run.specs.Top;

use access_vectors::Perm;
use flask_sid::Name;
use text_lines::FaultKind;

/// How a run ended.
#[derive(Debug, PartialEq, Eq, Drop)]
pub enum Status {
    /// The input was read to its end and the whole text was written.
    Ok,
    /// The words are no command. Nothing was read.
    Usage,
    /// The input is no session: its first faulty line, and what is wrong with it.
    BadText {
        line: u32,
        kind: FaultKind,
    },
    /// The session's policy leads to more contexts than there are identifiers.
    TooManyContexts,
    /// A version of the session's policy, numbered from 0, allows what the `neverallow` line of that number forbids: this
    /// permission, for these types of source and target. The first by version, line, source, target and permission.
    Neverallow {
        version: u8,
        line: u32,
        s: Name,
        t: Name,
        perm: Perm,
    },
    /// The source failed.
    ReadFault,
    /// The sink failed.
    WriteFault,
    /// The input has more than 4,194,304 bytes.
    TooLarge,
    Memory,
}

impl Status {
    /// The exit code.
    pub fn code(&self) -> u8
        ensures { result ≡ Top.code_of self.now }
    {
        match self {
            Status::Ok => 0,
            Status::Usage => 2,
            Status::BadText { .. } => 3,
            Status::Neverallow { .. } => 3,
            Status::TooManyContexts => 3,
            Status::ReadFault => 4,
            Status::WriteFault => 5,
            Status::TooLarge => 6,
            Status::Memory => 7,
        }
    }
}
