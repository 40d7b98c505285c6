//! A fault explained.

use crate::cause::Cause;
use crate::mistake::Mistake;
use crate::scene::Scene;
use flask_sid::Memory;
use std::alloc::Global;
use text_lines::FaultKind;

/// What is wrong with the first faulty line of a text, of which a reader told the number, counted from 1, and the kind of fault.
/// `is_session` tells that the text was to be a session, and not a policy alone.
pub fn explain<'a>(
    alloc: Global,
    bytes: &'a [u8],
    number: u32,
    kind: FaultKind,
    is_session: bool,
) -> Result<Cause<'a>, Memory> {
    let scene = Scene::of(alloc, bytes, number)?;
    let mistake = match scene.mistake(number, kind, is_session) {
        Some(mistake) => mistake,
        None => scene.about(general(kind)),
    };
    scene.cause(&mistake)
}

impl Scene<'_> {
    /// What is wrong with the line of a number, where more is known than the kind of fault.
    fn mistake(&self, number: u32, kind: FaultKind, is_session: bool) -> Option<Mistake> {
        match kind {
            FaultKind::Syntax => self.syntax_mistake(number),
            FaultKind::Order => Some(self.order_mistake()),
            FaultKind::Limit => Some(self.limit_mistake(number)),
            FaultKind::Unknown => self.unknown_mistake(),
            FaultKind::Undeclared => self.undeclared_mistake(),
            FaultKind::Twice => Some(self.twice_mistake()),
            FaultKind::Ended => Some(self.about(self.lacked(is_session))),
        }
    }

    /// What is wrong with the words of a line: its bytes are looked at first, then what shows that it was written for another reader.
    fn syntax_mistake(&self, number: u32) -> Option<Mistake> {
        if let Some(mistake) = self.bytes_mistake(number) {
            return Some(mistake);
        }
        if let Some(mistake) = self.comment_mistake() {
            return Some(mistake);
        }
        match self.selinux_mistake() {
            Some(mistake) => Some(mistake),
            None => self.form_mistake(),
        }
    }

    fn form_mistake(&self) -> Option<Mistake> {
        let Some(form) = self.form else {
            return Some(self.head_mistake());
        };
        match self.class_mistake(form) {
            Some(mistake) => Some(mistake),
            None => self.misfit(form),
        }
    }
}

/// What a kind of fault says where nothing more is known.
fn general(kind: FaultKind) -> &'static str {
    match kind {
        FaultKind::Syntax => "the words of the line are not those of its form",
        FaultKind::Order => "the line may not stand here",
        FaultKind::Limit => "something is past its limit",
        FaultKind::Unknown => "a name is not declared above",
        FaultKind::Undeclared => "a context is not declared above",
        FaultKind::Twice => "something is declared a second time",
        FaultKind::Ended => "the text ends too early",
    }
}
