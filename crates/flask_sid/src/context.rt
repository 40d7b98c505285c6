//! Security contexts: user, role and type.

ghost use Rattle.std.specs.Prelude.{◌≡◌, Some, None, Ok, Err, IfOk};
ghost use Rattle.flask_sid.specs.Contexts;

use crate::{Memory, Name, Word, cut};
use std::alloc::Global;

/// The three names of a context: kept ones, or words of a text.
#[derive(Debug, Drop, PartialEq, Eq, Hash)]
pub struct ContextOf<N> {
    pub user: N,
    pub role: N,
    pub kind: N,
}

/// A security context: user, role and type.
pub type Context = ContextOf<Name>;

/// Why a word gives no context.
#[derive(Clone, Copy, Debug, PartialEq, Eq)]
pub enum ContextFault {
    /// The word is not `user:role:type`.
    Syntax,
    Memory,
}

impl Context {
    /// The context that a word is. `Syntax` exactly where it is not three names joined by `:`, the last of
    /// which is not `self`.
    pub fn read(alloc: Global, word: &[u8]) -> Result<Context, ContextFault>
        ensures { Contexts.IsRead result (Contexts.context_of word.now) }
    {
        match short_context(word) {
            None => Err(ContextFault::Syntax),
            Some(words) => match kept(alloc, &words) {
                Ok(context) => Ok(context),
                Err(Memory) => Err(ContextFault::Memory),
            },
        }
    }
}

impl ContextOf<Word<'_>> {
    /// Whether some name is longer than a name may be.
    #[tactic(auto, unfolding(crate::specs::Contexts::is_long_context))]
    pub fn is_long(&self) -> bool
        ensures { result ≡ Contexts.is_long_context self.now }
    {
        self.user.is_long() || self.role.is_long() || self.kind.is_long()
    }
}

/// The context whose names the word's parts would be but for their length, or `None` where the word is not
/// shaped so.
#[tactic(auto, unfolding(crate::specs::Contexts::context_form, crate::specs::Contexts::context_of_parts))]
pub fn context_form(word: &[u8]) -> Option<ContextOf<Word<'_>>>
    ensures { result ≡ Contexts.context_form word.now }
{
    let (user, rest) = cut(word, b':')?;
    let (role, kind) = cut(rest, b':')?;
    if let Some((_more, _after)) = cut(kind, b':') {
        return None;
    }
    let context = ContextOf {
        user: Word::new(user),
        role: Word::new(role),
        kind: Word::new(kind),
    };
    if context.user.is_name_form() && context.role.is_name_form() && context.kind.is_kind_form() {
        Some(context)
    } else {
        None
    }
}

#[tactic(auto, unfolding(crate::specs::Contexts::context_of))]
fn short_context(word: &[u8]) -> Option<ContextOf<Word<'_>>>
    ensures { result ≡ Contexts.context_of word.now }
{
    let context = context_form(word)?;
    if context.is_long() {
        None
    } else {
        Some(context)
    }
}

/// Kept copies of a context's words.
pub fn kept(alloc: Global, words: &ContextOf<Word<'_>>) -> Result<Context, Memory>
    ensures { IfOk result (λ context. context ≡ words.now) }
{
    Ok(ContextOf {
        user: Name::of(alloc, &words.user)?,
        role: Name::of(alloc, &words.role)?,
        kind: Name::of(alloc, &words.kind)?,
    })
}
