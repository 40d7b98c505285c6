//! How many of what there may be.

/// The lines of which there may be only so many, by their first words.
static LIMITS: [(&str, &str); 15] = [
    ("context", "4095 contexts and 128 types"),
    ("type", "128 types"),
    ("attribute", "64 attributes"),
    (
        "neverallow",
        "1024 lines of neverallow, dontaudit and auditallow",
    ),
    (
        "dontaudit",
        "1024 lines of neverallow, dontaudit and auditallow",
    ),
    (
        "auditallow",
        "1024 lines of neverallow, dontaudit and auditallow",
    ),
    ("version", "64 versions"),
    ("allow", "1024 rule lines in a version"),
    ("withhold", "1024 rule lines in a version"),
    ("transition", "1024 rule lines in a version"),
    ("member", "1024 rule lines in a version"),
    ("dir", "4095 files and directories in a session"),
    ("file", "4095 files and directories in a session"),
    ("client", "62 clients"),
    ("port", "1024 ports with labels of their own"),
];

/// How many there may be of what lines with this first word declare.
pub(crate) fn limit_of(first: &str) -> Option<&'static str> {
    'limits: for (word, most) in LIMITS.iter() {
        if *word == first {
            return Some(*most);
        }
    }
    None
}
