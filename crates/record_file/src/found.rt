//! What the buffered bytes of a record show of its next frame.

ghost use Rattle.std.specs.Prelude.{◌≡◌, ◌≤◌, ◌<◌, ◌+◌, ℕ, ◌∷◌, length, true, IsTrue};
ghost use Rattle.std.specs.Int.{w32, from_le_bytes};
ghost use Rattle.record_file.specs.Record.{frame_of, sized_of, last_kind, is_kind_of, most_events, longest_payload};
ghost use Rattle.record_file.specs.inside.Found.{read_of, IsWhole, is_short, is_frame};

use crate::{RecordFault, Version};

/// How many events a record may have.
pub const MOST_EVENTS: u32 = 4_194_304;

/// How many bytes a payload may have.
pub const LONGEST_PAYLOAD: u32 = 4_194_304;

/// What some bytes show of a frame.
#[derive(Clone, Copy)]
pub enum Found {
    /// There are no bytes.
    Ended,
    /// There is no whole frame.
    Fault(RecordFault),
    /// A whole frame, with this kind and this many bytes of payload.
    Frame(u8, u32),
}

impl Found {
    /// Whether more bytes may change it: there was no byte, or a frame that is cut.
    pub fn is_short(&self) -> bool
        ensures { result ≡ is_short self.now }
    {
        matches!(self, Found::Ended | Found::Fault(RecordFault::Torn))
    }
}

/// The last kind that frames of a version have.
fn last_kind(version: Version) -> u8
    ensures { result ≡ last_kind version }
{
    match version {
        Version::One => 4,
        Version::Two => 5,
    }
}

/// Whether frames of a version have this kind: 1 is a tick, 2 a signed block, 3 and 4 are attestations, 5 is an attester slashing.
fn is_kind_of(version: Version, kind: u8) -> bool
    ensures { result ≡ is_kind_of version kind }
{
    kind >= 1 && kind <= last_kind(version)
}

// The length that four bytes write.
fn length_in(bytes: &[u8]) -> u32
    requires { length bytes.now ≡ 4 }
    ensures { result ≡ from_le_bytes w32 bytes.now }
{
    u32::from_le_bytes([bytes[0], bytes[1], bytes[2], bytes[3]])
}

// Behind the kind of a frame.
#[tactic(auto, unfolding(crate::specs::Record::sized_of, crate::specs::Record::payload_of))]
fn sized_at(version: Version, kind: u8, bytes: &[u8]) -> Found
    ensures read { sized_of kind bytes.now ≡ read_of result (kind ∷ bytes.now) }
    ensures whole { is_kind_of version kind ≡ true → IsWhole version result (kind ∷ bytes.now) }
    ensures short { is_short result ≡ true → length bytes.now < 4 + longest_payload }
{
    if bytes.len() < 4 {
        return Found::Fault(RecordFault::Torn);
    }
    let (length, payload) = bytes.split_at(4);
    let size = length_in(length);
    if size > LONGEST_PAYLOAD {
        return Found::Fault(RecordFault::TooLong(size));
    }
    if payload.len() < size as usize {
        return Found::Fault(RecordFault::Torn);
    }
    Found::Frame(kind, size)
}

/// What stands at the front of the bytes, behind that many events, if no more bytes come.
#[tactic(auto, unfolding(crate::specs::Record::frame_of, crate::specs::Record::sized_of, crate::specs::Record::payload_of))]
pub fn frame_at(version: Version, events: u32, bytes: &[u8]) -> Found
    ensures read { frame_of version events bytes.now ≡ read_of result bytes.now }
    ensures whole { IsWhole version result bytes.now }
    ensures short { is_short result ≡ true → length bytes.now < 5 + longest_payload }
    ensures room { is_frame result ≡ true → events < most_events }
{
    let [kind, behind @ ..] = bytes else {
        return Found::Ended;
    };
    if events >= MOST_EVENTS {
        return Found::Fault(RecordFault::TooMany);
    }
    if !is_kind_of(version, *kind) {
        return Found::Fault(RecordFault::BadKind(*kind));
    }
    sized_at(version, *kind, behind)
}
