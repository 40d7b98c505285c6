//! The permissions of each class, by their places and their names.

ghost use Rattle.std.specs.Prelude.{◌≡◌, ◌<◌, map, SomeIff};
ghost use Rattle.std.specs.List.{position};
ghost use Rattle.std.specs.Str.{bytes_eq};
ghost use Rattle.access_vectors.specs.Table.{perm_count, perm_words, perm_word, perm_named};
ghost use Rattle.access_vectors.specs.declared.class.Class.TheVariants.{File, Dir, Process, Port, Security};

use crate::class::Class;
use std::marker::Model;

/// A permission of a class. Contracts see the class and the permission's place in the class's row.
#[derive(Clone, Copy, Debug, PartialEq, Eq)]
pub struct Perm {
    pub(crate) class: Class,
    pub(crate) index: u8,
}

impl Model for Perm {
    ghost use Rattle.std.specs.Prelude.{◌<◌};
    ghost use Rattle.access_vectors.specs.Table.{Permission, perm_count};

    ghost Value = { Permission };

    ghost view = { λ perm. record { class = perm.class; index = perm.index } };

    ghost invariant = { λ perm. perm.index < perm_count perm.class };

    ghost inverse = { λ perm. record { class = perm.class; index = perm.index } };
}

static FILE_NAMES: [&str; 8] = [
    "read",
    "write",
    "append",
    "create",
    "unlink",
    "getattr",
    "relabelfrom",
    "relabelto",
];

static DIR_NAMES: [&str; 8] = [
    "read",
    "search",
    "create",
    "add_name",
    "remove_name",
    "getattr",
    "relabelfrom",
    "relabelto",
];

static PROCESS_NAMES: [&str; 7] = [
    "fork",
    "transition",
    "signal",
    "ptrace",
    "exit",
    "wait",
    "getattr",
];

static PORT_NAMES: [&str; 5] = ["name_bind", "recv", "send", "connect", "getattr"];

static SECURITY_NAMES: [&str; 1] = ["load_policy"];

fn names(class: Class) -> &'static [&'static str]
    ensures { map (λ name. name.now) result.now ≡ perm_words class }
{
    match class {
        Class::File => &FILE_NAMES,
        Class::Dir => &DIR_NAMES,
        Class::Process => &PROCESS_NAMES,
        Class::Port => &PORT_NAMES,
        Class::Security => &SECURITY_NAMES,
    }
}

impl Perm {
    /// The permission at a place in the class's row, or `None` exactly where the row has no such place.
    pub fn of(class: Class, index: u8) -> Option<Perm>
        ensures { SomeIff result (index < perm_count class) (record { class = class; index = index }) }
    {
        if index < class.perm_count() {
            Some(Perm { class, index })
        } else {
            None
        }
    }

    /// The class whose permission it is.
    pub fn class(self) -> Class
        ensures { result ≡ self.class }
    {
        self.class
    }

    /// Its place in the class's row, which is the index of its bit in a vector.
    pub fn index(self) -> u8
        ensures value { result ≡ self.index }
        ensures within { result < perm_count self.class }
    {
        self.index
    }
}

/// The name of a permission, as policy texts write it.
#[tactic(auto, unfolding(crate::specs::Table::perm_word))]
pub fn perm_name(perm: Perm) -> &'static str
    ensures { result.now ≡ perm_word perm }
{
    names(perm.class)[usize::from(perm.index)]
}

fn file_place(name: &[u8]) -> Option<u8>
    ensures { result ≡ position (λ word. bytes_eq word name.now) (perm_words File) }
{
    match name {
        b"read" => Some(0),
        b"write" => Some(1),
        b"append" => Some(2),
        b"create" => Some(3),
        b"unlink" => Some(4),
        b"getattr" => Some(5),
        b"relabelfrom" => Some(6),
        b"relabelto" => Some(7),
        _ => None,
    }
}

fn dir_place(name: &[u8]) -> Option<u8>
    ensures { result ≡ position (λ word. bytes_eq word name.now) (perm_words Dir) }
{
    match name {
        b"read" => Some(0),
        b"search" => Some(1),
        b"create" => Some(2),
        b"add_name" => Some(3),
        b"remove_name" => Some(4),
        b"getattr" => Some(5),
        b"relabelfrom" => Some(6),
        b"relabelto" => Some(7),
        _ => None,
    }
}

fn process_place(name: &[u8]) -> Option<u8>
    ensures { result ≡ position (λ word. bytes_eq word name.now) (perm_words Process) }
{
    match name {
        b"fork" => Some(0),
        b"transition" => Some(1),
        b"signal" => Some(2),
        b"ptrace" => Some(3),
        b"exit" => Some(4),
        b"wait" => Some(5),
        b"getattr" => Some(6),
        _ => None,
    }
}

fn port_place(name: &[u8]) -> Option<u8>
    ensures { result ≡ position (λ word. bytes_eq word name.now) (perm_words Port) }
{
    match name {
        b"name_bind" => Some(0),
        b"recv" => Some(1),
        b"send" => Some(2),
        b"connect" => Some(3),
        b"getattr" => Some(4),
        _ => None,
    }
}

fn security_place(name: &[u8]) -> Option<u8>
    ensures { result ≡ position (λ word. bytes_eq word name.now) (perm_words Security) }
{
    match name {
        b"load_policy" => Some(0),
        _ => None,
    }
}

fn place_of(class: Class, name: &[u8]) -> Option<u8>
    ensures { result ≡ position (λ word. bytes_eq word name.now) (perm_words class) }
{
    match class {
        Class::File => file_place(name),
        Class::Dir => dir_place(name),
        Class::Process => process_place(name),
        Class::Port => port_place(name),
        Class::Security => security_place(name),
    }
}

/// The permission of a class with that name, or `None` exactly where the class has none.
#[tactic(auto, unfolding(crate::specs::Table::perm_named))]
pub fn perm_of(class: Class, name: &[u8]) -> Option<Perm>
    ensures { result ≡ perm_named class name.now }
{
    match place_of(class, name) {
        Some(index) => Some(Perm { class, index }),
        None => None,
    }
}
