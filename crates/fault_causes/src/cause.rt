//! What is told of a faulty line.

/// Some bytes of a line: from this column on, counted from 0, and how many.
#[derive(Clone, Copy)]
pub struct Mark {
    pub from: usize,
    pub length: usize,
}

/// What is wrong with a line.
#[derive(Drop)]
pub struct Cause<'a> {
    /// What is wrong, in one sentence.
    pub what: String,
    /// The bytes at fault, where they can be told.
    pub mark: Option<Mark>,
    /// The form of such a line.
    pub form: Option<&'static str>,
    /// The declared or known name that is nearest to an unknown one.
    pub nearest: Option<&'a str>,
}
