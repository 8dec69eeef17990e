//! Bytes that are being written: the writers of containers put their fields here, and what is finished goes to files
//! and hashes.

ghost use Rattle.std.specs.Prelude.{◌≡◌, ◌<◌, ◌^◌, [], ◌++◌, length, take, OnOk, OnErr};
ghost use Rattle.hash_tree.specs.Merkle.{uint_to_bytes, bool_bytes};
ghost use Rattle.ssz_codec.specs.Layout.{offset_bytes};

use bc_words::NoMemory;
use std::alloc::Global;
use std::marker::Model;

/// The bytes that were written so far (simple-serialize.md, "Serialization"). Where memory is refused, they are as
/// before the call.
#[derive(Drop)]
pub struct Writer {
    bytes: Vec<u8>,
}

impl Model for Writer {
    ghost use Rattle.std.specs.Prelude.{List, ℕ};

    ghost Value = { List ℕ };

    ghost view = { λ writer. writer.bytes.items };
}

impl Writer {
    /// Nothing is written yet.
    pub fn new(alloc: Global) -> Writer
        ensures { result ≡ [] }
    {
        Writer {
            bytes: Vec::new(alloc),
        }
    }

    /// A number of 64 bits in eight bytes.
    #[tactic(auto, unfolding(hash_tree::specs::Merkle::uint_to_bytes))]
    pub fn put_u64(&mut self, n: u64) -> Result<(), NoMemory>
        ensures ok { OnOk result (self.new ≡ self.old ++ uint_to_bytes n) }
        ensures err { OnErr result (self.new ≡ self.old) }
    {
        self.put_bytes(&n.to_le_bytes())
    }

    /// An offset in four bytes.
    #[tactic(auto, unfolding(crate::specs::Layout::offset_bytes))]
    pub fn put_u32(&mut self, n: u32) -> Result<(), NoMemory>
        ensures ok { OnOk result (self.new ≡ self.old ++ offset_bytes n) }
        ensures err { OnErr result (self.new ≡ self.old) }
    {
        self.put_bytes(&n.to_le_bytes())
    }

    /// A boolean in one byte.
    pub fn put_bool(&mut self, b: bool) -> Result<(), NoMemory>
        ensures ok { OnOk result (self.new ≡ self.old ++ bool_bytes b) }
        ensures err { OnErr result (self.new ≡ self.old) }
    {
        self.put_bytes(&[u8::from(b)])
    }

    /// Bytes as they are.
    pub fn put_bytes(&mut self, bytes: &[u8]) -> Result<(), NoMemory>
        ensures ok { OnOk result (self.new ≡ self.old ++ bytes.now) }
        ensures err { OnErr result (self.new ≡ self.old) }
    {
        match self.bytes.extend_from_slice(bytes) {
            Ok(()) => Ok(()),
            Err(_refused) => Err(NoMemory),
        }
    }

    /// What is written.
    pub(crate) fn as_slice(&self) -> &[u8]
        ensures { result.now ≡ self.now }
    {
        self.bytes.as_slice()
    }

    /// Where its memory comes from.
    pub(crate) fn alloc(&self) -> Global {
        *self.bytes.allocator()
    }

    /// How many bytes are written.
    pub fn len(&self) -> usize
        ensures { result ≡ length self.now }
    {
        self.bytes.len()
    }

    /// Takes away what was written behind so many bytes.
    pub(crate) fn cut_back(&mut self, len: usize)
        ensures { self.new ≡ take len self.old }
    {
        self.bytes.truncate(len);
    }

    /// The pieces, joined.
    pub fn finish(self) -> Vec<u8>
        ensures { result.items ≡ self }
    {
        let Writer { bytes } = self;
        bytes
    }
}
