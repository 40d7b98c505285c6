//! Answers as texts: in lines for each result, or as one object of JSON.

use crate::json::put_object;
use crate::values::{Value, put_line};
use fault_causes::{put_all, put_number};
use flask_sid::Memory;
use std::alloc::Global;

/// How an answer is written.
#[derive(Clone, Copy)]
pub(crate) enum Form {
    Lines,
    Json,
}

/// What a command writes to standard output, and the exit status: 0, or 1 for an answer "no" or a finding.
#[derive(Drop)]
pub struct Report {
    pub text: String,
    pub status: u8,
    pub(crate) form: Form,
    /// Whether the list that is being written has results.
    pub(crate) is_begun: bool,
}

impl Report {
    /// A report that says nothing yet.
    pub(crate) fn new(alloc: Global, form: Form) -> Report {
        Report {
            text: String::new(alloc),
            status: 0,
            form,
            is_begun: false,
        }
    }

    /// Begins the results, with the exit status.
    pub(crate) fn begin(&mut self, status: u8) -> Result<(), Memory> {
        self.status = status;
        if let Form::Json = self.form {
            put_all(&mut self.text, &["{\"status\":"])?;
            put_number(&mut self.text, u64::from(status))?;
            put_all(&mut self.text, &[",\"results\":["])?;
        }
        Ok(())
    }

    /// Begins notes, behind the results.
    pub(crate) fn begin_notes(&mut self) -> Result<(), Memory> {
        match self.form {
            Form::Lines => Ok(()),
            Form::Json => {
                self.is_begun = false;
                put_all(&mut self.text, &["],\"notes\":["])
            }
        }
    }

    /// Puts a result: a line of these values, or an object with these members.
    pub(crate) fn put(
        &mut self,
        line: &[Value<'_>],
        members: &[(&'static str, Value<'_>)],
    ) -> Result<(), Memory> {
        self.part("\n")?;
        match self.form {
            Form::Lines => put_line(&mut self.text, line),
            Form::Json => put_object(&mut self.text, members),
        }
    }

    /// Parts a result from the one before it: in lines by a gap.
    pub(crate) fn part(&mut self, gap: &str) -> Result<(), Memory> {
        if !self.is_begun {
            self.is_begun = true;
            return Ok(());
        }
        match self.form {
            Form::Lines => put_all(&mut self.text, &[gap]),
            Form::Json => put_all(&mut self.text, &[","]),
        }
    }

    /// Ends the answer.
    pub(crate) fn end(&mut self) -> Result<(), Memory> {
        match self.form {
            Form::Lines => put_all(&mut self.text, &[if self.is_begun { "\n" } else { "" }]),
            Form::Json => put_all(&mut self.text, &["]}\n"]),
        }
    }
}
