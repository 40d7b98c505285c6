//! How a version allows what a `neverallow` line forbids.

use crate::kind::Kind;
use access_vectors::Perm;

/// How a version of a policy allows what a `neverallow` line forbids.
#[derive(Clone, Copy, Debug, PartialEq, Eq)]
pub struct Break {
    /// The version, counted from 0.
    pub version: u8,
    /// The number of the `neverallow` line in the text.
    pub line: u32,
    /// The source's type.
    pub s: Kind,
    /// The target's type.
    pub t: Kind,
    /// The permission that is allowed and forbidden.
    pub perm: Perm,
}
