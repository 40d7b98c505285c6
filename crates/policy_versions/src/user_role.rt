//! Users with their roles, by rows.

ghost use Rattle.std.specs.Prelude.{◌≡◌, ◌+◌, ◌<◌, ◌≤◌, length, IfOk, MatchOption};
ghost use Rattle.policy_model.specs.Deciding.{object_role};
ghost use Rattle.policy_versions.specs.Numbers.{object_row, row_at, AreRows};
ghost use Rattle.policy_versions.specs.Users.{IsRowOf, IsNew, HasObject, HasFront};

use flask_sid::{Context, Memory, Name, Word};
use indexmap::IndexSet;
use std::alloc::Global;
use std::marker::Model;

/// A user with a role, and the row of that user with the role of objects.
#[derive(Debug, Drop)]
pub(crate) struct UserRole {
    pub(crate) user: Name,
    pub(crate) role: Name,
    pub(crate) object: u16,
}

/// A user with a role, as the key of an index.
#[derive(Debug, Drop, PartialEq, Eq, Hash)]
pub(crate) struct Holder {
    user: Name,
    role: Name,
}

/// The rows of contexts: each user with a role has one, and so has each user with the role of objects. The index has the row of
/// each.
#[derive(Drop)]
pub(crate) struct UserRoles {
    rows: Vec<UserRole>,
    holders: IndexSet<Holder>,
}

impl Model for UserRoles {
    ghost use Rattle.std.specs.Prelude.{List};
    ghost use Rattle.policy_versions.specs.declared.user_role.UserRole.{UserRole};
    ghost use Rattle.policy_versions.specs.Users.{AreRowsBy};

    ghost Value = { List UserRole };

    ghost view = { λ users. users.rows.items };

    ghost invariant = { λ users. AreRowsBy users.rows.items users.holders.keys };
}

impl UserRoles {
    /// No row.
    pub(crate) fn new(alloc: Global) -> UserRoles
        ensures { length result ≡ 0 }
    {
        UserRoles {
            rows: Vec::new(alloc),
            holders: IndexSet::new(alloc),
        }
    }

    /// How many rows there are.
    pub(crate) fn len(&self) -> usize
        ensures value { result ≡ length self.now }
        ensures rows { AreRows self.now }
    {
        self.rows.len()
    }

    /// The row of a context's user and role, which gets one where it has none.
    pub(crate) fn row(&mut self, alloc: Global, context: &Context) -> Result<u16, Memory>
        requires { length self.old + 2 < 65536 }
        ensures front { HasFront self.new self.old }
        ensures few { length self.new ≤ length self.old + 2 }
        ensures row { IfOk result (λ row. IsRowOf self.new row context.now.user context.now.role) }
    {
        let object = self.object_row(alloc, &context.user)?;
        let holder = Holder {
            user: context.user.copy(alloc)?,
            role: context.role.copy(alloc)?,
        };
        match self.find(&holder) {
            Some(row) => Ok(row),
            None => self.push(alloc, holder, object),
        }
    }

    fn object_row(&mut self, alloc: Global, user: &Name) -> Result<u16, Memory>
        requires { length self.old + 1 < 65536 }
        ensures front { HasFront self.new self.old }
        ensures few { length self.new ≤ length self.old + 1 }
        ensures row { IfOk result (λ row. IsRowOf self.new row user.now object_role) }
    {
        let holder = Holder {
            user: user.copy(alloc)?,
            role: Name::of(alloc, &Word::new(b"object_r"))?,
        };
        match self.find(&holder) {
            Some(row) => Ok(row),
            None => {
                let object = self.len() as u16;
                self.push(alloc, holder, object)
            }
        }
    }

    fn find(&self, holder: &Holder) -> Option<u16>
        requires { length self.now < 65536 }
        ensures { MatchOption result (IsNew self.now holder.now.user holder.now.role) (λ row. IsRowOf self.now row holder.now.user holder.now.role) }
    {
        match self.holders.get_index_of(holder) {
            Some(row) => Some(row as u16),
            None => None,
        }
    }

    // The list has room before the index grows, so that both grow or neither does.
    fn push(&mut self, alloc: Global, holder: Holder, object: u16) -> Result<u16, Memory>
        requires few { length self.old < 65535 }
        requires new { IsNew self.old holder.user holder.role }
        requires object { HasObject self.old (record { user = holder.user; role = holder.role; object = object }) }
        ensures front { HasFront self.new self.old }
        ensures few { length self.new ≤ length self.old + 1 }
        ensures row { IfOk result (λ number. IsRowOf self.new number holder.user holder.role) }
    {
        let number = self.rows.len() as u16;
        let user = holder.user.copy(alloc)?;
        let role = holder.role.copy(alloc)?;
        self.rows.reserve(1)?;
        self.holders.insert(holder)?;
        match self.rows.push(UserRole { user, role, object }) {
            Ok(()) => Ok(number),
            Err(_refused) => unreachable!(),
        }
    }

    /// The user and the role of a row.
    pub(crate) fn at(&self, row: u16) -> &UserRole
        requires { row < length self.now }
        ensures value { result.now ≡ row_at self.now row }
        ensures object { object_row self.now row < length self.now }
    {
        &self.rows[usize::from(row)]
    }
}
