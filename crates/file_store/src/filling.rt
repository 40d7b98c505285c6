//! What a slot is filled with.

use access_vectors::Vector;
use flask_sid::Sid;

/// What a slot is filled with: a numbered file, the identifiers of the client and of the file, and a mode, under a policy
/// number.
#[derive(Clone, Copy, Debug)]
pub struct Filling {
    pub object: u32,
    pub s: Sid,
    pub t: Sid,
    pub mode: Vector,
    pub number: u32,
}
