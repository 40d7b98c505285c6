//! A bound port, and the messages that wait there.

ghost use Rattle.std.specs.Prelude.{◌≡◌, ◌<◌, ◌≤◌, [], length, slice_get, option_copied, IfOk};
ghost use Rattle.port_calls.specs.States.{message_limit};
ghost use Rattle.port_store.specs.Queues.{with_newest, without_oldest};

use circular_buffer::HeapCircularBuffer;
use flask_sid::{Memory, Piece};
use std::alloc::Global;
use std::marker::Model;

/// How many messages may wait at a port.
pub const MESSAGE_LIMIT: usize = 16;

/// A bound port: the client that bound it, and the messages that wait, for which there is room from the first on.
#[derive(Drop)]
pub struct Queue {
    owner: u8,
    messages: HeapCircularBuffer<Piece>,
}

impl Model for Queue {
    ghost use Rattle.std.specs.Prelude.{◌≡◌};
    ghost use Rattle.port_calls.specs.States.{Bound, message_limit};
    ghost use Rattle.port_store.specs.Stores.{bound_code};

    ghost Value = { Bound };

    ghost coded = { bound_code };

    ghost view = { λ queue. record { owner = queue.owner; messages = queue.messages.items } };

    ghost invariant = { λ queue. queue.messages.capacity ≡ message_limit };
}

impl Queue {
    /// No message, with room for as many as may wait.
    pub fn new(alloc: Global, owner: u8) -> Result<Queue, Memory>
        ensures { IfOk result (λ queue. queue ≡ record { owner = owner; messages = [] }) }
    {
        let Ok(messages) = HeapCircularBuffer::with_capacity(alloc, MESSAGE_LIMIT) else {
            return Err(Memory);
        };
        Ok(Queue { owner, messages })
    }

    /// How many messages wait.
    pub fn len(&self) -> usize
        ensures len { result ≡ length self.now.messages }
        ensures within { result ≤ message_limit }
    {
        self.messages.len()
    }

    /// The oldest message, or `None` exactly where none waits.
    pub fn oldest(&self) -> Option<&Piece>
        ensures { option_copied result ≡ slice_get self.now.messages 0 }
    {
        self.messages.front()
    }

    /// Adds a message as the newest, where there is room.
    pub fn push(&mut self, message: Piece)
        requires { length self.old.messages < message_limit }
        ensures { self.new ≡ with_newest self.old message }
    {
        let _ = self.messages.push_back(message);
    }

    /// Drops the oldest message, if one waits.
    pub fn pop(&mut self)
        ensures { self.new ≡ without_oldest self.old }
    {
        let _ = self.messages.pop_front();
    }
}
