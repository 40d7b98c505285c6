//! A text as the policy or the session that it is.

use fault_causes::Lines;
use policy_model::PolicyText;
use session_text::Session;
use std::alloc::Global;
use std::mem::ManuallyDrop;
use text_lines::{TextFault, Words};

/// A policy, alone or at the head of a session.
#[derive(Drop)]
pub(crate) enum Text {
    Policy(PolicyText),
    Session(Session),
}

impl Text {
    /// The policy.
    pub(crate) fn policy(&self) -> &PolicyText {
        match self {
            Text::Policy(policy) => policy,
            Text::Session(session) => &session.parts().policy,
        }
    }
}

/// Reads a session where some line begins with `session`, and else a policy. It is kept to the end of the program, which comes
/// with the answer: nothing would be won by taking it apart before.
pub(crate) fn read_text(alloc: Global, bytes: &[u8]) -> Result<ManuallyDrop<Text>, TextFault> {
    if is_session(bytes) {
        return match session_text::read(alloc, bytes) {
            Ok(session) => Ok(ManuallyDrop::new(Text::Session(session))),
            Err(fault) => Err(fault),
        };
    }
    match policy_text::read(alloc, bytes) {
        Ok(policy) => Ok(ManuallyDrop::new(Text::Policy(policy))),
        Err(fault) => Err(fault),
    }
}

/// Whether some line begins with `session`.
pub(crate) fn is_session(bytes: &[u8]) -> bool {
    let mut lines = Lines::new(bytes);
    'lines: for _ in 0..bytes.len() {
        match lines.next() {
            None => return false,
            Some(line) => if begins_session(line) {
                return true;
            },
        }
    }
    false
}

fn begins_session(line: &[u8]) -> bool {
    let mut words = Words::new(line);
    match words.next() {
        None => false,
        Some(first) => first.is(b"session"),
    }
}
