//! The forms of lines, as the document of the formats writes them: words in small letters stand as they are, one of several
//! between bars, words in capital letters are parts, `..` repeats the part before it, and what stands in brackets may be missing.

use crate::lines::Span;
use crate::places::Place;

static POLICY_FORMS: [&str; 13] = [
    "policy 1",
    "context CONTEXT",
    "type NAME",
    "attribute NAME TYPE ..",
    "neverallow S T CLASS PERM ..",
    "dontaudit S T CLASS PERM ..",
    "auditallow S T CLASS PERM ..",
    "version",
    "allow S T CLASS PERM ..",
    "withhold S T CLASS PERM ..",
    "transition S T CLASS TYPE",
    "member S T CLASS TYPE",
    "session",
];

static SETUP_FORMS: [&str; 7] = [
    "initial root|port CONTEXT",
    "port PORT CONTEXT",
    "audit",
    "dir PATH CONTEXT",
    "file PATH CONTEXT [DATA]",
    "client NAME CONTEXT",
    "run",
];

static RUN_FORMS: [&str; 35] = [
    "admin notify VERSION",
    "admin update COUNT",
    "admin ack",
    "admin force",
    "CLIENT file|process|port begin",
    "CLIENT file|process|port end",
    "CLIENT file mkdir PATH",
    "CLIENT file create PATH",
    "CLIENT file open SLOT PATH r|w|a|rw|ra|wa|rwa",
    "CLIENT file read SLOT OFFSET LENGTH",
    "CLIENT file write SLOT OFFSET DATA",
    "CLIENT file append SLOT DATA",
    "CLIENT file close SLOT",
    "CLIENT file unlink PATH",
    "CLIENT file list PATH SKIP",
    "CLIENT file stat PATH",
    "CLIENT file relabel PATH CONTEXT",
    "CLIENT file give SLOT RECEIVER TARGET",
    "CLIENT process fork PID",
    "CLIENT process exec PID CONTEXT",
    "CLIENT process signal PID NUMBER",
    "CLIENT process exit PID CODE",
    "CLIENT process wait PID",
    "CLIENT process attach SLOT PID",
    "CLIENT process peek SLOT",
    "CLIENT process poke SLOT VALUE",
    "CLIENT process detach SLOT",
    "CLIENT process stat PID",
    "CLIENT port bind SLOT PORT b|br",
    "CLIENT port connect SLOT PORT c|cs",
    "CLIENT port recv SLOT",
    "CLIENT port push SLOT DATA",
    "CLIENT port send PORT DATA",
    "CLIENT port unbind SLOT",
    "CLIENT port stat PORT",
];

/// The forms of the lines that may stand in a place.
pub(crate) fn forms_in(place: Place) -> &'static [&'static str] {
    match place {
        Place::Policy => &POLICY_FORMS,
        Place::Setup => &SETUP_FORMS,
        Place::Run => &RUN_FORMS,
    }
}

/// Whether a word begins a line of a place.
pub(crate) fn begins_in(place: Place, first: &str) -> bool {
    'forms: for form in forms_in(place) {
        if part_at(*form, 0) == first {
            return true;
        }
    }
    false
}

/// The form of a line with these words, by the words of the form that stand as they are.
pub(crate) fn form_of(place: Place, words: &[Span<'_>]) -> Option<&'static str> {
    'forms: for form in forms_in(place) {
        if has_head(form, words) {
            return Some(*form);
        }
    }
    None
}

fn has_head(form: &str, words: &[Span<'_>]) -> bool {
    'parts: for (at, part) in form.split(' ').enumerate() {
        if is_literal(part) && !stands_at(words, at, part) {
            return false;
        }
    }
    true
}

fn stands_at(words: &[Span<'_>], at: usize, part: &str) -> bool {
    match words.get(at) {
        None => false,
        Some(word) => word.text == part,
    }
}

/// Whether a part of a form stands as it is.
fn is_literal(part: &str) -> bool {
    match part.as_bytes().first() {
        None => false,
        Some(first) => first.is_ascii_lowercase() && !part.contains('|'),
    }
}

/// The part of a form at a place, counted from 0, or no letters where it has none.
pub(crate) fn part_at(form: &'static str, place: usize) -> &'static str {
    form.split(' ').nth(place).unwrap_or("")
}

/// The part of a form for the word at a place, counted from 0: what `..` repeats stands as often as it has to. No letters where
/// the form has no place for such a word.
pub(crate) fn part_for(form: &'static str, place: usize) -> &'static str {
    let count = form.split(' ').count();
    if form.ends_with(" ..") && place.saturating_add(1) >= count {
        return part_at(form, count.saturating_sub(2));
    }
    part_at(form, place)
}

/// How many words a line of a form has at least.
pub(crate) fn least_words(form: &str) -> usize {
    let mut count = 0usize;
    'parts: for part in form.split(' ') {
        if !part.starts_with("..") && !part.starts_with('[') {
            count = count.saturating_add(1);
        }
    }
    count
}
