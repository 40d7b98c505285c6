//! Each permission by a name of its own, in the order of the classes' rows.

use crate::class::Class;
use crate::perm::Perm;

pub const FILE_READ: Perm = Perm {
    class: Class::File,
    index: 0,
};

pub const FILE_WRITE: Perm = Perm {
    class: Class::File,
    index: 1,
};

pub const FILE_APPEND: Perm = Perm {
    class: Class::File,
    index: 2,
};

pub const FILE_CREATE: Perm = Perm {
    class: Class::File,
    index: 3,
};

pub const FILE_UNLINK: Perm = Perm {
    class: Class::File,
    index: 4,
};

pub const FILE_GETATTR: Perm = Perm {
    class: Class::File,
    index: 5,
};

pub const FILE_RELABELFROM: Perm = Perm {
    class: Class::File,
    index: 6,
};

pub const FILE_RELABELTO: Perm = Perm {
    class: Class::File,
    index: 7,
};

pub const DIR_READ: Perm = Perm {
    class: Class::Dir,
    index: 0,
};

pub const DIR_SEARCH: Perm = Perm {
    class: Class::Dir,
    index: 1,
};

pub const DIR_CREATE: Perm = Perm {
    class: Class::Dir,
    index: 2,
};

pub const DIR_ADD_NAME: Perm = Perm {
    class: Class::Dir,
    index: 3,
};

pub const DIR_REMOVE_NAME: Perm = Perm {
    class: Class::Dir,
    index: 4,
};

pub const DIR_GETATTR: Perm = Perm {
    class: Class::Dir,
    index: 5,
};

pub const DIR_RELABELFROM: Perm = Perm {
    class: Class::Dir,
    index: 6,
};

pub const DIR_RELABELTO: Perm = Perm {
    class: Class::Dir,
    index: 7,
};

pub const PROCESS_FORK: Perm = Perm {
    class: Class::Process,
    index: 0,
};

pub const PROCESS_TRANSITION: Perm = Perm {
    class: Class::Process,
    index: 1,
};

pub const PROCESS_SIGNAL: Perm = Perm {
    class: Class::Process,
    index: 2,
};

pub const PROCESS_PTRACE: Perm = Perm {
    class: Class::Process,
    index: 3,
};

pub const PROCESS_EXIT: Perm = Perm {
    class: Class::Process,
    index: 4,
};

pub const PROCESS_WAIT: Perm = Perm {
    class: Class::Process,
    index: 5,
};

pub const PROCESS_GETATTR: Perm = Perm {
    class: Class::Process,
    index: 6,
};

pub const PORT_NAME_BIND: Perm = Perm {
    class: Class::Port,
    index: 0,
};

pub const PORT_RECV: Perm = Perm {
    class: Class::Port,
    index: 1,
};

pub const PORT_SEND: Perm = Perm {
    class: Class::Port,
    index: 2,
};

pub const PORT_CONNECT: Perm = Perm {
    class: Class::Port,
    index: 3,
};

pub const PORT_GETATTR: Perm = Perm {
    class: Class::Port,
    index: 4,
};

pub const SECURITY_LOAD_POLICY: Perm = Perm {
    class: Class::Security,
    index: 0,
};
