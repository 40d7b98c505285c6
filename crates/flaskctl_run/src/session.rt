//! A session that is run for its answers.

use crate::source::read_or_explain;
use crate::stop::Stop;
use crate::text::Text;
use session_text::Session;
use std::alloc::Global;
use std::mem::ManuallyDrop;

/// Reads a session, or tells what is wrong with it. A policy alone has no line that runs.
pub(crate) fn read_session(alloc: Global, bytes: &[u8]) -> Result<Session, Stop> {
    let text = read_or_explain(alloc, bytes)?;
    match ManuallyDrop::into_inner(text) {
        Text::Session(session) => Ok(session),
        Text::Policy(_) => Err(Stop::Usage(String::from_str(
            alloc,
            "a policy alone has no line that runs",
        )?)),
    }
}
