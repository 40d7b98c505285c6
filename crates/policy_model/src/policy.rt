//! The lines of a policy.

use access_vectors::{Class, Vector};
use flask_sid::{Context, Name, Rows};

/// Whom a line speaks of.
#[derive(Debug, Drop)]
pub enum WhoOf<N> {
    /// A type, or the types of an attribute.
    Named(N),
    /// Every type.
    Any,
    /// As a target, the source's own type.
    Itself,
}

/// Whom a line of a policy speaks of.
pub type Who = WhoOf<Name>;

/// A line on permissions outside the versions: what no version may allow, or what is audited.
#[derive(Debug, Drop)]
pub struct Pattern {
    pub line: u32,
    pub source: Who,
    pub target: Who,
    pub class: Class,
    pub perms: Vector,
}

/// What a rule line decides where it matches.
#[derive(Debug, Drop)]
pub enum Verdict {
    /// Yes, for these permissions.
    Allow(Vector),
    /// No, for these permissions.
    Withhold(Vector),
    /// The type of a new object.
    Transition(Name),
    /// The type of the member of a set.
    Member(Name),
}

/// What a line that gives a type decides.
#[derive(Clone, Copy, Debug, PartialEq, Eq)]
pub enum Labelling {
    /// The type of a new object.
    Transition,
    /// The type of the member of a set.
    Member,
}

/// A line of a version.
#[derive(Debug, Drop)]
pub struct RuleLine {
    pub line: u32,
    pub source: Who,
    pub target: Who,
    pub class: Class,
    pub verdict: Verdict,
}

/// A declared context.
#[derive(Debug, Drop)]
pub struct ContextLine {
    pub line: u32,
    pub context: Context,
}

/// A declared type, and the `type` or `context` line that declares it.
#[derive(Debug, Drop)]
pub struct KindLine {
    pub line: u32,
    pub name: Name,
}

/// A name for the types that have it.
#[derive(Debug, Drop)]
pub struct AttributeLine {
    pub line: u32,
    pub name: Name,
    pub members: Rows<Name>,
}

/// One of the policies of a text.
#[derive(Debug, Drop)]
pub struct Version {
    pub line: u32,
    pub rules: Rows<RuleLine>,
}

/// All that a policy text says: seven lists in the order of the text, each member with the number of its line.
#[derive(Debug, Drop)]
pub struct PolicyParts {
    pub contexts: Rows<ContextLine>,
    /// The declared types.
    pub kinds: Rows<KindLine>,
    pub attributes: Rows<AttributeLine>,
    /// What no version may allow.
    pub nevers: Rows<Pattern>,
    /// The denials that have no audit line.
    pub silent: Rows<Pattern>,
    /// The grants that have an audit line.
    pub loud: Rows<Pattern>,
    pub versions: Rows<Version>,
}
