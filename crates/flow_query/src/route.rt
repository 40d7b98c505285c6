//! The questions by which information flows between two types, and by which a domain is entered.

use access_vectors::Perm;
use access_vectors::perms::{
    DIR_ADD_NAME, DIR_GETATTR, DIR_READ, DIR_REMOVE_NAME, DIR_SEARCH, FILE_APPEND, FILE_CREATE,
    FILE_GETATTR, FILE_READ, FILE_WRITE, PORT_GETATTR, PORT_RECV, PORT_SEND, PROCESS_GETATTR,
    PROCESS_PTRACE, PROCESS_SIGNAL, PROCESS_TRANSITION, PROCESS_WAIT,
};

/// What is looked for: how information gets from one type to another, or how a domain is entered from another.
#[derive(Clone, Copy, Debug, PartialEq, Eq)]
pub enum Kind {
    Flow,
    Enter,
}

/// Which way information goes where a permission is used: to the target, or from it.
#[derive(Clone, Copy, Debug, PartialEq, Eq)]
pub(crate) enum Way {
    Writing,
    Reading,
}

/// A permission by whose use information goes one way.
pub(crate) type Route = (Perm, Way);

/// Writing and reading permissions by class and index, and writing before reading.
pub(crate) const FLOWS: [Route; 18] = [
    (FILE_READ, Way::Reading),
    (FILE_WRITE, Way::Writing),
    (FILE_APPEND, Way::Writing),
    (FILE_CREATE, Way::Writing),
    (FILE_GETATTR, Way::Reading),
    (DIR_READ, Way::Reading),
    (DIR_SEARCH, Way::Reading),
    (DIR_ADD_NAME, Way::Writing),
    (DIR_REMOVE_NAME, Way::Writing),
    (DIR_GETATTR, Way::Reading),
    (PROCESS_SIGNAL, Way::Writing),
    (PROCESS_PTRACE, Way::Writing),
    (PROCESS_PTRACE, Way::Reading),
    (PROCESS_WAIT, Way::Reading),
    (PROCESS_GETATTR, Way::Reading),
    (PORT_RECV, Way::Reading),
    (PORT_SEND, Way::Writing),
    (PORT_GETATTR, Way::Reading),
];

/// By which permission a domain is entered.
pub(crate) const ENTRIES: [Route; 1] = [(PROCESS_TRANSITION, Way::Writing)];
