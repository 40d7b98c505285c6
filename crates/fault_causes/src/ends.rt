//! Texts that end too early.

use crate::declared::Sought;
use crate::places::Place;
use crate::scene::Scene;

impl Scene<'_> {
    /// What a text lacks at its end, or at its line `session`.
    pub(crate) fn lacked(&self, is_session: bool) -> &'static str {
        if self.place == Place::Setup {
            return "the text ends without a line run, below which the lines that run stand";
        }
        if self.place == Place::Run {
            return "the text ends too early";
        }
        if self.line_above(Sought::Head("policy")).is_none() {
            return "the text says nothing: its first line is policy 1";
        }
        if self.line_above(Sought::Head("context")).is_none() {
            return "the policy has no line context: it needs one at least";
        }
        if self.line_above(Sought::Head("version")).is_none() {
            return "the policy has no line version: it needs one at least";
        }
        if is_session {
            return "the text ends without a line session";
        }
        "the text ends too early"
    }
}
