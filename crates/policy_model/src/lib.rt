//! Policies, as their lines: what is declared, which questions a line matches, and what a version decides by the last
//! line that matches. How a text is read is not known here.
#![tactic(auto)]

mod deciding;
mod guesses;
mod labelling;
mod matching;
mod policy;
mod text;

pub use guesses::Guesses;
pub use policy::{
    AttributeLine, ContextLine, KindLine, Labelling, Pattern, PolicyParts, RuleLine, Verdict,
    Version, Who, WhoOf,
};
pub use text::PolicyText;
