//! One event of a record.

ghost use Rattle.std.specs.Prelude.{◌≡◌, ℕ, List};

use std::marker::Model;

/// The bytes of an event, which its kind says how to read.
#[derive(Drop)]
pub struct Payload {
    bytes: Vec<u8>,
}

impl Model for Payload {
    ghost Value = { List ℕ };

    ghost view = { λ payload. payload.bytes.items };
}

impl Payload {
    /// The payload of these bytes.
    pub fn new(bytes: Vec<u8>) -> Self
        ensures { result ≡ bytes.items }
    {
        Payload { bytes }
    }

    /// Its bytes.
    pub fn as_slice(&self) -> &[u8]
        ensures { result.now ≡ self.now }
    {
        &self.bytes
    }
}

/// One frame of a record.
#[derive(Drop)]
pub struct Event {
    /// What kind of event it is: 1 is a tick, 2 a signed block, 3 an attestation from the wire, 4 one from a block, 5 an attester
    /// slashing.
    pub kind: u8,
    /// The bytes of the frame behind its length, at most 2^22.
    pub payload: Payload,
}
