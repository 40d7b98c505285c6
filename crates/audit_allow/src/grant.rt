//! Grants, and the two lists of them that are learned.

use access_vectors::{Class, Vector};
use flask_sid::Rows;

/// Permissions of a class that sources of one type are to have on targets of another. Types are given by their places in the
/// order of declaration, counted from 0.
#[derive(Clone, Copy, Debug, PartialEq, Eq)]
pub struct Grant {
    pub s: u8,
    pub t: u8,
    pub class: Class,
    pub perms: Vector,
}

/// What is learned from denials, by source, target and class code.
#[derive(Debug, Drop)]
pub struct Learned {
    /// What lines of `allow` may grant.
    pub allow: Rows<Grant>,
    /// What a `neverallow` line refuses.
    pub refused: Rows<Grant>,
}

/// Which of the two lists a grant stands in.
#[derive(Clone, Copy, Debug, PartialEq, Eq)]
pub enum GrantKind {
    /// Of permissions that no `neverallow` line matches.
    Allow,
    /// Of permissions that one matches.
    Refused,
}
