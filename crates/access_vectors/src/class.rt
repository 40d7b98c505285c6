//! The classes of objects, by their codes and their names.

ghost use Rattle.std.specs.Prelude.{◌≡◌, ◌≤◌};
ghost use Rattle.access_vectors.specs.Table.{code_of, perm_count, class_coded, class_word, class_named};

/// What kind of object a permission speaks of.
#[derive(Clone, Copy, Debug, PartialEq, Eq)]
pub enum Class {
    File = 1,
    Dir = 2,
    Process = 3,
    Port = 4,
    Security = 5,
}

impl Class {
    /// All classes, in the order of their codes.
    pub const ALL: [Class; 5] = [
        Class::File,
        Class::Dir,
        Class::Process,
        Class::Port,
        Class::Security,
    ];

    /// The code of the class, from 1 to 5.
    pub fn code(self) -> u8
        ensures { result ≡ code_of self }
    {
        self as u8
    }

    /// The class of a code, or `None` exactly where it is not 1 to 5.
    #[tactic(auto, unfolding(crate::specs::Table::class_coded))]
    pub fn of_code(code: u8) -> Option<Class>
        ensures { result ≡ class_coded code }
    {
        Class::ALL
            .iter()
            .copied()
            .find(|class| class.code() == code)
    }

    /// How many permissions the class has.
    pub fn perm_count(self) -> u8
        ensures value { result ≡ perm_count self }
        ensures small { result ≤ 8 }
    {
        match self {
            Class::File | Class::Dir => 8,
            Class::Process => 7,
            Class::Port => 5,
            Class::Security => 1,
        }
    }
}

/// The name of a class, as policy texts write it.
pub fn class_name(class: Class) -> &'static str
    ensures { result.now ≡ class_word class }
{
    match class {
        Class::File => "file",
        Class::Dir => "dir",
        Class::Process => "process",
        Class::Port => "port",
        Class::Security => "security",
    }
}

/// The class of a name, or `None` exactly where no class has it.
#[tactic(auto, unfolding(crate::specs::Table::class_named))]
pub fn class_of(name: &[u8]) -> Option<Class>
    ensures { result ≡ class_named name.now }
{
    match name {
        b"file" => Some(Class::File),
        b"dir" => Some(Class::Dir),
        b"process" => Some(Class::Process),
        b"port" => Some(Class::Port),
        b"security" => Some(Class::Security),
        _ => None,
    }
}
