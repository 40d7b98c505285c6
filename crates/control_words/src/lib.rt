//! The words of `flaskctl`'s command line, by the parser of `clap`, which also writes help and version.
#![tactic(auto)]

mod words;

pub use words::{AskWords, Command, DiffWords, Request, WhoWords, WhyWords, program, request_of};
