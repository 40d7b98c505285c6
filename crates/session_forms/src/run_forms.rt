//! Whom a line that runs asks: the managers by their names.

ghost use Rattle.std.specs.Prelude.{◌≡◌};
ghost use Rattle.session_forms.specs.RunForms;

use flask_sid::Word;

/// An object manager.
#[derive(Clone, Copy, Debug, PartialEq, Eq)]
pub enum Manager {
    File,
    Process,
    Port,
}

/// The manager of that name, or `None` where it names none.
#[tactic(auto, unfolding(crate::specs::RunForms::manager_of))]
pub fn manager_of(word: &Word<'_>) -> Option<Manager>
    ensures { result ≡ RunForms.manager_of word.now }
{
    if word.is(b"file") {
        return Some(Manager::File);
    }
    if word.is(b"process") {
        return Some(Manager::Process);
    }
    if word.is(b"port") {
        return Some(Manager::Port);
    }
    None
}
