//! What a line of a session comes to.

use access_vectors::Asked;
use change_protocol::NotifyAllFault;
use manager_history::Answer;
use session_forms::Manager;
use session_managers::{Acks, Got, Reply};

/// What a line came to: a client's call got this reply under a policy number, or was aborted; a client holds a pass of that number
/// or gave it back; or what the administrator was told.
#[derive(Drop)]
pub enum LineAnswer {
    Replied {
        client: u8,
        manager: Manager,
        number: u32,
        got: Answer<Reply>,
    },
    Begun {
        client: u8,
        manager: Manager,
        number: u32,
    },
    Ended {
        client: u8,
        manager: Manager,
        number: u32,
    },
    Notified(Result<u32, NotifyAllFault>),
    Updated([u64; 3]),
    Acknowledged(Acks),
}

/// Who acts in a client's call, on which manager, under which policy number, and the version of that number, counted from 0.
#[derive(Clone, Copy, Debug)]
pub struct Caller {
    pub client: u8,
    pub manager: Manager,
    pub number: u32,
    pub version: u8,
}

/// The call of the line of a number: who acted in it, and what it got and asked, lent from the manager's history.
#[derive(Clone, Copy, Debug)]
pub struct Called<'m> {
    pub line: u32,
    pub caller: Caller,
    pub got: Got<'m>,
    pub asked: &'m [Asked],
}
