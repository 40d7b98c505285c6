//! Declared contexts by an index: a context's place is found without a walk over all of them.

ghost use Rattle.std.specs.Prelude.{◌≡◌, [], ◌∷◌, ◌++◌, false, OnOk, OnErr};
ghost use Rattle.std.specs.List.{list_any, position};
ghost use Rattle.policy_model.specs.Declarations.{same_context};

use flask_sid::{ContextOf, Memory, Word};
use indexmap::IndexSet;
use std::alloc::Global;
use std::marker::Model;
use text_lines::Key;

/// Contexts by an index, each of them once. Contracts see their list, in the order in which they were added.
#[derive(Drop)]
pub struct ContextIndex<'a> {
    contexts: IndexSet<ContextOf<Key<'a>>>,
}

impl<'a> Model for ContextIndex<'a> {
    ghost use Rattle.std.specs.Prelude.{List, ℕ};
    ghost use Rattle.flask_sid.specs.declared.context.ContextOf.{ContextOf};

    ghost Value = { List (ContextOf (List ℕ)) };

    ghost view = { λ index. index.contexts.keys };
}

impl<'a> ContextIndex<'a> {
    /// The index of no context, which takes no memory yet.
    pub(crate) fn new(alloc: Global) -> ContextIndex<'a>
        ensures { result ≡ [] }
    {
        ContextIndex {
            contexts: IndexSet::new(alloc),
        }
    }

    /// The place of a context, or `None` exactly where it is not there.
    pub fn place(&self, context: &ContextOf<Word<'a>>) -> Option<usize>
        ensures { result ≡ position (λ kept. same_context kept context.now) self.now }
    {
        self.contexts.get_index_of(&key_of(context))
    }

    /// Whether a context is there.
    pub(crate) fn has(&self, context: &ContextOf<Word<'a>>) -> bool
        ensures { result ≡ list_any (λ kept. same_context kept context.now) self.now }
    {
        self.contexts.contains(&key_of(context))
    }

    /// Adds a context that is not there yet. After `Memory` the index is as before.
    pub(crate) fn add(&mut self, context: &ContextOf<Word<'a>>) -> Result<(), Memory>
        requires { list_any (λ kept. same_context kept context.now) self.old ≡ false }
        ensures ok { OnOk result (self.new ≡ self.old ++ context.now ∷ []) }
        ensures err { OnErr result (self.new ≡ self.old) }
    {
        self.contexts.insert(key_of(context))?;
        Ok(())
    }
}

fn key_of<'a>(context: &ContextOf<Word<'a>>) -> ContextOf<Key<'a>>
    ensures { result ≡ context.now }
{
    ContextOf {
        user: Key::of(&context.user),
        role: Key::of(&context.role),
        kind: Key::of(&context.kind),
    }
}
