//! A context by two numbers.

use crate::kind::Kind;

/// A context by numbers: the row of its user and role, and its type.
#[derive(Clone, Copy, Debug, PartialEq, Eq)]
pub(crate) struct Place {
    pub(crate) row: u16,
    pub(crate) kind: Kind,
}
