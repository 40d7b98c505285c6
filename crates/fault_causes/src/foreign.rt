//! Mistakes that a look at the bytes of a line shows, and words of other languages.

use crate::mistake::Mistake;
use crate::mistake::Piece::{Here, Name, Number, Other, Said};
use crate::places::Place;
use crate::scene::Scene;
use flask_sid::context_form;

static WINDOWS: &'static str =
    "Windows line ends: a carriage return stands before the line end; a line ends by byte 10 alone";

/// The first words of SELinux lines that begin no line here.
static FOREIGN: [&str; 35] = [
    "allowxperm",
    "attribute_role",
    "bool",
    "class",
    "common",
    "constrain",
    "dominance",
    "expandattribute",
    "fs_use_task",
    "fs_use_trans",
    "fs_use_xattr",
    "gen_require",
    "genfscon",
    "if",
    "mlsconstrain",
    "module",
    "netifcon",
    "nodecon",
    "optional_policy",
    "permissive",
    "policy_module",
    "portcon",
    "range_transition",
    "require",
    "role",
    "role_transition",
    "sid",
    "type_change",
    "type_member",
    "type_transition",
    "typealias",
    "typeattribute",
    "typebounds",
    "user",
    "validatetrans",
];

impl Scene<'_> {
    /// What the bytes of a line show: a byte that may not stand in any line.
    pub(crate) fn bytes_mistake(&self, number: u32) -> Option<Mistake> {
        if number == 1 && self.line.starts_with(&[0xef, 0xbb, 0xbf]) {
            return Some(self.at_bytes(
                0,
                3,
                &[Said("a byte order mark stands before the text: save it without one")],
            ));
        }
        let last = self.line.len().saturating_sub(1);
        'bytes: for (at, b) in self.line.iter().enumerate() {
            if let Some(why) = byte_fault(*b, at == last) {
                return Some(self.byte_mistake(at, *b, why));
            }
        }
        None
    }

    fn byte_mistake(&self, at: usize, b: u8, why: &'static str) -> Mistake {
        if why == WINDOWS {
            return self.at_bytes(at, 1, &[Name]).with_name(why);
        }
        self.at_bytes(
            at,
            1,
            &[Said("the byte "), Number, Said(" in column "), Other, Name],
        )
        .with_name(why)
        .with_numbers(u64::from(b), at.saturating_add(1) as u64)
    }

    /// A comment behind words, or one that begins as elsewhere.
    pub(crate) fn comment_mistake(&self) -> Option<Mistake> {
        let first = self.word(0);
        if first.starts_with("//") || first.starts_with("--") || first.starts_with("/*") {
            return Some(self.told(
                0,
                &[Said("a comment begins with #, and has a line of its own")],
            ));
        }
        'words: for at in 1..self.words.len() {
            if self.word(at).starts_with("#") {
                return Some(self.told(
                    at,
                    &[Said("a comment stands behind words: it has to have a line of its own")],
                ));
            }
        }
        None
    }

    /// SELinux's way to write, in the lines of a policy.
    pub(crate) fn selinux_mistake(&self) -> Option<Mistake> {
        if self.place != Place::Policy {
            return None;
        }
        if self.form.is_none() && FOREIGN.contains(&self.word(0)) {
            return Some(self.told(
                0,
                &[
                    Said("SELinux syntax: there is no line "),
                    Here,
                    Said(" here (docs/SELINUX.md says what stands for it)"),
                ],
            ));
        }
        'words: for at in 0..self.words.len() {
            if let Some(what) = self.mark_fault(at) {
                return Some(self.told(at, &[Name]).with_name(what));
            }
        }
        None
    }

    fn mark_fault(&self, at: usize) -> Option<&'static str> {
        let word = self.word(at);
        if has_colon(word) && self.takes_no_colon(at) {
            return Some(colon_fault(word));
        }
        if has_brace(word) {
            return Some(
                "SELinux syntax: braces; names follow one another here, and one line has one source, target and class",
            );
        }
        if word.ends_with(';') {
            return Some("SELinux syntax: a semicolon; a line ends by its line end here");
        }
        if is_excepted(word) {
            return Some("SELinux syntax: there is no complement and no exception here");
        }
        None
    }

    fn takes_no_colon(&self, at: usize) -> bool {
        at > 0 && self.form.is_some() && self.word(0) != "context"
    }
}

fn has_colon(word: &str) -> bool {
    word.contains(':')
}

fn has_brace(word: &str) -> bool {
    word.contains('{') || word.contains('}')
}

fn is_excepted(word: &str) -> bool {
    word.starts_with('~') || word.starts_with('-')
}

/// Why a byte may not stand in a line, or as its last byte.
fn byte_fault(b: u8, is_last: bool) -> Option<&'static str> {
    match b {
        b'\t' | b' '..=b'~' => None,
        b'\r' => Some(if is_last {
            WINDOWS
        } else {
            " may not stand in a line"
        }),
        128..=255 => Some(" is no ASCII, in a comment neither"),
        _ => Some(" may not stand in a line"),
    }
}

fn colon_fault(word: &str) -> &'static str {
    match context_form(word.as_bytes()) {
        None => {
            "SELinux syntax: a colon between type and class; they are words of their own here"
        }
        Some(_) =>
            "a context stands here: a rule names types, and the type of a context is the last of its names",
    }
}
