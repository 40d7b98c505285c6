//! What a slot is attached with.

use flask_sid::Sid;

/// What a slot is attached with: a process by its number, and the identifiers of the client and of the process, under a
/// policy number.
#[derive(Clone, Copy, Debug)]
pub struct Attachment {
    pub pid: u32,
    pub s: Sid,
    pub t: Sid,
    pub number: u32,
}
