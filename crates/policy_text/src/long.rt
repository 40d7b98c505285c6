//! Names longer than names may be.

ghost use Rattle.std.specs.Prelude.{◌≡◌};
ghost use Rattle.std.specs.List.{list_any};
ghost use Rattle.flask_sid.specs.Names.{is_long};
ghost use Rattle.policy_text.specs.Above;

use crate::form::{LabelForm, PatternForm};
use flask_sid::Word;
use policy_model::WhoOf;
use text_lines::Words;

fn is_long_who(who: &WhoOf<Word<'_>>) -> bool
    ensures { result ≡ Above.is_long_who who.now }
{
    match who {
        WhoOf::Named(name) => name.is_long(),
        WhoOf::Any => false,
        WhoOf::Itself => false,
    }
}

impl PatternForm<'_> {
    #[tactic(auto, unfolding(crate::specs::Above::is_long_pattern))]
    pub(crate) fn is_long(&self) -> bool
        ensures { result ≡ Above.is_long_pattern self.now }
    {
        is_long_who(&self.source)
            || is_long_who(&self.target)
            || self.class.is_long()
            || is_some_long(self.perms.again())
    }
}

impl LabelForm<'_> {
    #[tactic(auto, unfolding(crate::specs::Above::is_long_label))]
    pub(crate) fn is_long(&self) -> bool
        ensures { result ≡ Above.is_long_label self.now }
    {
        is_long_who(&self.source)
            || is_long_who(&self.target)
            || self.class.is_long()
            || self.kind.is_long()
    }
}

pub(crate) fn is_some_long(words: Words<'_>) -> bool
    ensures { result ≡ list_any is_long words.entry }
{
    // Nearly every line is so short that no word of it is long, and then no word is cut.
    if words.are_within(32) {
        return false;
    }
    let mut rest = words;
    'names: while let Some(word) = rest.next() {
        if word.is_long() {
            return true;
        }
    }
    false
}
