//! Reads policy texts: the declarations, and the rule lines of each version.
//!
//! A line is looked at twice. Its form is what it says by itself: the words that it is made of, with names of
//! any length. What it asks of the lines above it comes second. The first fault in that order is the one that is
//! named, so `read` answers the text's policy or exactly its first faulty line and what is wrong with it.
#![tactic(auto)]

mod contexts;
mod declarations;
mod draft;
mod example;
mod form;
mod known;
mod line;
mod long;
mod plain;
mod reader;
mod rules;

pub use contexts::ContextIndex;
pub use example::smallest;
pub use policy_model::{
    AttributeLine, ContextLine, KindLine, Labelling, Pattern, PolicyParts, PolicyText, RuleLine,
    Verdict, Version, Who, WhoOf,
};
pub use reader::{PolicyReader, read};
pub use text_lines::FaultKind;

/// Why a policy text is refused.
pub type PolicyFault = text_lines::TextFault;
