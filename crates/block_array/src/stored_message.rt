//! The place of a validator's latest message, in the list of all.
//!
//! The inputs hold one for each validator, and hand out what stands in it as an option.

ghost use Rattle.std.specs.Prelude.{◌≡◌, Some, None};

use crate::node::Message;
use std::marker::Model;

/// A message, or none. Contracts see the option. Fields lie in this order: in another one each would take half as much again, as an
/// option of a message does.
#[derive(Drop)]
pub(crate) struct StoredMessage {
    node: u32,
    is_there: bool,
    epoch: u64,
}

const _: () = prove!(size_of::<StoredMessage>() == 16);

impl Model for StoredMessage {
    ghost use Rattle.std.specs.Prelude.{Option, Some, None, if◌then◌else◌};
    ghost use Rattle.block_array.specs.declared.node.Message.{Message};

    ghost Value = { Option Message };

    ghost view = { λ s. if s.is_there then Some (record { epoch = s.epoch; node = s.node }) else None };
}

impl StoredMessage {
    /// No message.
    pub(crate) fn none() -> StoredMessage
        ensures { result ≡ None }
    {
        StoredMessage {
            node: 0,
            is_there: false,
            epoch: 0,
        }
    }

    /// This message.
    pub(crate) fn of(message: Message) -> StoredMessage
        ensures { result ≡ Some message }
    {
        StoredMessage {
            node: message.node,
            is_there: true,
            epoch: message.epoch,
        }
    }

    /// The message, if there is one.
    pub(crate) fn message(&self) -> Option<Message>
        ensures { result ≡ self.now }
    {
        if !self.is_there {
            return None;
        }
        Some(Message {
            epoch: self.epoch,
            node: self.node,
        })
    }
}
