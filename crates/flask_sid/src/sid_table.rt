//! The table of contexts that have identifiers.

ghost use Rattle.std.specs.Prelude.{◌≡◌, ◌==◌, ◌↔◌, ◌<◌, ◌≤◌, [], ◌∷◌, false, length, is_some, IfOk, OnErr};
ghost use Rattle.std.specs.Option.{option_copied};
ghost use Rattle.flask_sid.specs.SidTables;

use crate::{Context, Sid};
use indexmap::IndexSet;
use std::alloc::{AllocFailed, Global};
use std::marker::Model;

/// The number of contexts that a table can keep.
pub const MOST_CONTEXTS: usize = 4095;

/// Why a context got no identifier.
#[derive(Clone, Copy, Debug, PartialEq, Eq)]
pub enum InternFault {
    /// The context is new, and the table keeps as many as it can.
    Full,
    Memory,
}

impl From<AllocFailed<Context>> for InternFault {
    ghost use Rattle.std.specs.Prelude.{◌≡◌};
    ghost use Rattle.flask_sid.specs.declared.sid_table.InternFault.TheVariants.{Memory};

    ghost from_gives = { λ _ fault. fault ≡ Memory };

    fn from(_: AllocFailed<Context>) -> Self {
        InternFault::Memory
    }
}

/// The contexts that have identifiers. Contracts see the list of them, in the order of their numbers from 1.
#[derive(Drop)]
pub struct SidTable {
    contexts: IndexSet<Context>,
}

impl Model for SidTable {
    ghost use Rattle.std.specs.Prelude.{List, ℕ, length, ◌≤◌};
    ghost use Rattle.flask_sid.specs.declared.context.ContextOf.{ContextOf};
    ghost use Rattle.flask_sid.specs.SidTables.{AreDistinct};

    ghost Value = { List (ContextOf (List ℕ)) };

    ghost view = { λ table. table.contexts.keys };

    ghost invariant = { λ table. length table.contexts.keys ≤ 4095 };
}

impl SidTable {
    /// The table of no context, which takes no memory yet.
    pub fn new(alloc: Global) -> SidTable
        ensures { result ≡ [] }
    {
        SidTable {
            contexts: IndexSet::new(alloc),
        }
    }

    /// How many contexts the table keeps.
    pub fn len(&self) -> usize
        ensures value { result ≡ length self.now }
        ensures within { length self.now ≤ 4095 }
        ensures distinct { SidTables.AreDistinct self.now }
    {
        self.contexts.len()
    }

    /// Whether the table keeps no context.
    pub fn is_empty(&self) -> bool
        ensures { result ≡ (length self.now == 0) }
    {
        self.contexts.len() == 0
    }

    /// The identifier of a context. One that is kept has its identifier already, and a new one gets the next
    /// number: `Full` exactly where it is new and 4,095 are kept. After a fault the table is as before.
    pub fn intern(&mut self, context: Context) -> Result<Sid, InternFault>
        ensures sid { IfOk result (λ sid. SidTables.sid_of self.new context ≡ Some sid) }
        ensures kept { IfOk result (λ _. self.new ≡ SidTables.with_context self.old context) }
        ensures err { OnErr result (self.new ≡ self.old) }
        ensures new_only { OnErr result (SidTables.is_kept self.old context ≡ false) }
        ensures full { (result ≡ Err InternFault.Full)
            ↔ ((SidTables.is_kept self.old context ≡ false) × (length self.old ≡ 4095)) }
    {
        if let Some(sid) = self.find(&context) {
            return Ok(sid);
        }
        let place = self.len();
        if place >= MOST_CONTEXTS {
            return Err(InternFault::Full);
        }
        self.contexts.insert(context)?;
        Ok(Sid::at_place(place))
    }

    /// The identifier of a context, or `None` exactly where it is not kept.
    pub fn find(&self, context: &Context) -> Option<Sid>
        ensures value { result ≡ SidTables.sid_of self.now context.now }
        ensures kept { is_some result ≡ SidTables.is_kept self.now context.now }
    {
        let place = self.contexts.get_index_of(context)?;
        Some(Sid::at_place(place))
    }

    /// The context that an identifier stands for, or `None` exactly where the number was not given.
    pub fn context(&self, sid: Sid) -> Option<&Context>
        ensures value { option_copied result ≡ SidTables.context_of_sid self.now sid }
        ensures none { (result ≡ None) ↔ (length self.now < sid) }
    {
        self.contexts.get_index(sid.place())
    }
}
