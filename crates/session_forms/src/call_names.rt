//! The names of the calls, by which they are read and printed: each manager's in the order of the table of calls, and `stat`, which each has.

/// Makes a directory.
pub const MKDIR: &[u8] = b"mkdir";
/// Makes a file.
pub const CREATE: &[u8] = b"create";
/// Opens a file in a slot.
pub const OPEN_FILE: &[u8] = b"open";
/// Reads from the file in a slot.
pub const READ_FILE: &[u8] = b"read";
/// Writes to the file in a slot.
pub const WRITE_FILE: &[u8] = b"write";
/// Adds to the end of the file in a slot.
pub const APPEND_FILE: &[u8] = b"append";
/// Frees a slot of a file.
pub const CLOSE_FILE: &[u8] = b"close";
/// Takes a file or an empty directory out.
pub const UNLINK: &[u8] = b"unlink";
/// Tells the names in a directory.
pub const LIST: &[u8] = b"list";
/// Gives a file or a directory another context.
pub const RELABEL: &[u8] = b"relabel";
/// Lets a slot of another client hold what a slot holds.
pub const GIVE: &[u8] = b"give";

/// Makes a process.
pub const FORK: &[u8] = b"fork";
/// Gives a process the label that the policy has for a program of that context.
pub const EXEC: &[u8] = b"exec";
/// Sends a process a signal.
pub const SIGNAL: &[u8] = b"signal";
/// Ends a process.
pub const EXIT: &[u8] = b"exit";
/// Takes the code of a process that ended.
pub const WAIT: &[u8] = b"wait";
/// Attaches a slot to a process.
pub const ATTACH: &[u8] = b"attach";
/// Reads the register of the process in a slot.
pub const PEEK: &[u8] = b"peek";
/// Writes the register of the process in a slot.
pub const POKE: &[u8] = b"poke";
/// Frees a slot of a process.
pub const DETACH: &[u8] = b"detach";

/// Binds a port in a slot.
pub const BIND: &[u8] = b"bind";
/// Connects a slot to a port.
pub const CONNECT: &[u8] = b"connect";
/// Takes what was sent to the port in a slot.
pub const RECV: &[u8] = b"recv";
/// Sends to the port that a slot is connected to.
pub const PUSH: &[u8] = b"push";
/// Sends to a port.
pub const SEND: &[u8] = b"send";
/// Frees a slot of a port.
pub const UNBIND: &[u8] = b"unbind";

/// Tells what is known of a path, a process or a port: a call of each manager.
pub const STAT: &[u8] = b"stat";
