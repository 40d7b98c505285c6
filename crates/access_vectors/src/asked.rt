//! A question and its answer.

use crate::class::Class;
use crate::perm::Perm;
use flask_sid::Sid;
use std::alloc::Global;
use std::default::MadeWith;

/// A question and its answer: whether the source `s` has the permission on the target `t`.
#[derive(Clone, Copy, Debug, PartialEq, Eq)]
pub struct Asked {
    pub s: Sid,
    pub t: Sid,
    pub perm: Perm,
    pub yes: bool,
}

/// What stands in the unused places of a short list of questions.
impl MadeWith<Global> for Asked {
    fn made_with(_alloc: Global) -> Asked {
        let s = Sid::of(1).unwrap();
        let perm = Perm {
            class: Class::Security,
            index: 0,
        };
        Asked {
            s,
            t: s,
            perm,
            yes: false,
        }
    }
}
