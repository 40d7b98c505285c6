//! Audit: which questions of an operation are told to whoever watches, and the lines that tell them.
#![tactic(auto)]

mod audited;
mod log;
mod texts;

pub use audited::{Acting, AuditLine, AuditLines, lines_asked, lines_of, put_denials};
pub use log::AuditLog;
pub use texts::{put_text, text};
