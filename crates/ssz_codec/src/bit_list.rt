//! Lists of bits, as attestations have for the members of a committee.
//!
//! Bytes come from containers; bits go to those who look up which members attested, and roots to the containers.

ghost use Rattle.std.specs.Prelude.{◌≡◌, ℕ, ◌+◌, ◌*◌, ◌/◌, ◌^◌, ◌<◌, ◌≤◌, List, Bool, length, slice_get, take, drop, OnOk, OnErr, IfOk, IsTrue, ◌↔◌, Some, ◌++◌, ◌==◌, ◌∷◌, [], cond};
ghost use Rattle.hash_tree.specs.Merkle.{byte_chunks, bit_chunk_count, bits_bytes, chunks_of, padded_chunk};
ghost use Rattle.ssz_codec.specs.Basic.{number_bits};
ghost use Rattle.ssz_codec.specs.BitLists.{parse_bit_list, bit_list_bytes, bitlist};
ghost use Rattle.ssz_codec.specs.laws.BitLists.{whole_bits};
ghost use Rattle.ssz_codec.specs.Reads.{ReadsAs, Reads};

use crate::fault::SszFault;
use crate::writer::Writer;
use bc_words::NoMemory;
use hash_tree::{Root, chunk_root, depth_of, merkle_bytes, mix_in_length};
use std::alloc::Global;
use std::marker::Model;

/// A list of bits (simple-serialize.md, "Bitlist[N]"). Clauses see it as a list of `Bool`.
#[derive(Drop)]
pub struct BitList {
    // The bits, eight to a byte, low first. What stands above the last bit is 0.
    bytes: Vec<u8>,
    len: u64,
}

impl Model for BitList {
    ghost use Rattle.std.specs.Prelude.{List, Bool};

    ghost Value = { List Bool };

    ghost use Rattle.ssz_codec.specs.inside.HeldBits.{held_bits, IsHeld};

    ghost view = { held_bits };

    ghost invariant = { IsHeld };
}

/// The chunks of so many bits.
fn bit_chunks(bits: u64) -> u64
    requires { bits ≤ 2 ^ 40 }
    ensures exact { result ≡ bit_chunk_count bits }
    ensures low { result ≤ 2 ^ 40 }
{
    (bits + 255) / 256
}

/// The chunk of the bytes from a place on, where those that are missing are zeros.
fn chunk_from(bytes: &[u8], begin: usize) -> Root
    ensures { result ≡ padded_chunk (take 32 (drop begin bytes.now)) }
{
    let rest = &bytes[begin.min(bytes.len())..];
    chunk_root(&rest[..rest.len().min(32)])
}

/// A byte of which so many bits are in use, with one more above them.
fn with_bit(byte: u8, used: u64, bit: bool) -> u8
    requires room { used < 8 }
    requires low { byte < 2 ^ used }
    ensures { result ≡ byte + cond bit 1 0 * 2 ^ used }
{
    if bit { byte + (1 << used) } else { byte }
}

/// Bytes, and one more behind them. Where memory is refused, a part of them may stand there.
fn put_ended(front: &[u8], last: u8, out: &mut Writer) -> Result<(), NoMemory>
    ensures ok { OnOk result (out.new ≡ out.old ++ (front.now ++ last ∷ [])) }
    ensures err { OnErr result (take (length out.old) out.new ≡ out.old) }
{
    match out.put_bytes(front) {
        Ok(()) => out.put_bytes(&[last]),
        Err(refused) => Err(refused),
    }
}

impl BitList {
    /// No bit.
    pub fn new(alloc: Global) -> BitList
        ensures { result ≡ [] }
    {
        BitList {
            bytes: Vec::new(alloc),
            len: 0,
        }
    }

    /// One more bit at the end. Where memory is refused, the bits are as before.
    pub fn push(&mut self, bit: bool) -> Result<(), NoMemory>
        requires { length self.old < 2 ^ 63 }
        ensures ok { OnOk result (self.new ≡ self.old ++ bit ∷ []) }
        ensures err { OnErr result (self.new ≡ self.old) }
    {
        let used = self.len % 8;
        if used == 0 {
            return match self.bytes.push(with_bit(0, 0, bit)) {
                Ok(()) => {
                    self.len += 1;
                    Ok(())
                }
                Err(_refused) => Err(NoMemory),
            };
        }
        let last = self.bytes.len() - 1;
        let byte = self.bytes[last];
        self.bytes[last] = with_bit(byte, used, bit);
        self.len += 1;
        Ok(())
    }

    /// How many bits there are.
    pub fn len(&self) -> u64
        ensures { result ≡ length self.now }
    {
        self.len
    }

    /// The bit at an index. None exactly where the index is not below the length.
    pub fn get(&self, index: u64) -> Option<bool>
        ensures { result ≡ slice_get self.now index }
    {
        if self.len <= index {
            return None;
        }
        let byte = self.bytes[(index / 8) as usize];
        Some(byte >> (index % 8) & 1 == 1)
    }

    /// The same bits once more.
    pub fn copy(&self) -> Result<BitList, NoMemory>
        ensures { IfOk result (λ bits. bits ≡ self.now) }
    {
        match Vec::from_slice(*self.bytes.allocator(), &self.bytes) {
            Ok(bytes) => Ok(BitList {
                bytes,
                len: self.len,
            }),
            Err(_refused) => Err(NoMemory),
        }
    }

    /// Whether these are the same bits.
    pub fn equals(&self, other: &BitList) -> bool
        ensures { IsTrue result ↔ (self.now ≡ other.now) }
    {
        self.len == other.len && self.bytes == other.bytes
    }

    /// The writing, behind what is written already. Where memory is refused, a part of it may stand there.
    fn append_to(&self, out: &mut Writer) -> Result<(), NoMemory>
        ensures ok { OnOk result (out.new ≡ out.old ++ bit_list_bytes self.now) }
        ensures err { OnErr result (take (length out.old) out.new ≡ out.old) }
    {
        let used = self.len % 8;
        if used == 0 {
            return put_ended(&self.bytes, 1, out);
        }
        match self.bytes.split_last() {
            Some((last, front)) => put_ended(front, *last + (1 << used), out),
            None => unreachable!(),
        }
    }

    /// The writing, behind what is written already. Where memory is refused, the writer is as before.
    pub fn write_to(&self, out: &mut Writer) -> Result<(), NoMemory>
        ensures ok { OnOk result (out.new ≡ out.old ++ bit_list_bytes self.now) }
        ensures err { OnErr result (out.new ≡ out.old) }
    {
        let start = out.len();
        match self.append_to(out) {
            Ok(()) => Ok(()),
            Err(refused) => {
                out.cut_back(start);
                Err(refused)
            }
        }
    }

    /// The writing (simple-serialize.md, "Bitlist[N]").
    pub fn write(&self, alloc: Global) -> Result<Vec<u8>, NoMemory>
        ensures { IfOk result (λ bytes. bytes.items ≡ bit_list_bytes self.now) }
    {
        let mut out = Writer::new(alloc);
        match self.write_to(&mut out) {
            Ok(()) => Ok(out.finish()),
            Err(refused) => Err(refused),
        }
    }

    /// The first two chunks of the bits (simple-serialize.md, "pack_bits"), which are zero where there are none.
    pub fn first_chunks(&self) -> [Root; 2]
        ensures { result ≡ chunks_of 2 (bits_bytes self.now) }
    {
        [chunk_from(&self.bytes, 0), chunk_from(&self.bytes, 32)]
    }

    /// The root, as a list of at most so many bits (simple-serialize.md, "Merkleization").
    #[tactic(auto, unfolding(hash_tree::specs::Merkle::merkleize))]
    pub fn root(&self, limit: u64) -> Root
        requires low { limit ≤ 2 ^ 40 }
        requires fits { length self.now ≤ limit }
        ensures { result ≡ (bitlist limit).hash_tree_root self.now }
    {
        let depth = depth_of(bit_chunks(limit));
        mix_in_length(&merkle_bytes(&self.bytes, depth), self.len)
    }

    /// Reads exactly the bytes that are the writing of a list of at most so many bits (simple-serialize.md,
    /// "Deserialization").
    pub fn read(alloc: Global, bytes: &[u8], limit: u64) -> Result<BitList, SszFault>
        ensures parses { ReadsAs result (parse_bit_list limit bytes.now) }
        ensures reads { Reads (bitlist limit) result bytes.now }
    {
        BitList::parse(alloc, bytes, limit)
    }

    /// The bits below the highest 1 of the last byte.
    fn parse(alloc: Global, bytes: &[u8], limit: u64) -> Result<BitList, SszFault>
        ensures { ReadsAs result (parse_bit_list limit bytes.now) }
    {
        let Some((last, front)) = bytes.split_last() else {
            return Err(SszFault::NotAWriting);
        };
        let last = *last;
        if last == 0 {
            return Err(SszFault::NotAWriting);
        }
        let place = last.ilog2();
        let whole = front.len() as u64;
        if limit / 8 < whole {
            return Err(SszFault::NotAWriting);
        }
        if limit < 8 * whole + u64::from(place) {
            return Err(SszFault::NotAWriting);
        }
        match before_delimiter(alloc, front, last, place) {
            Ok(bits) => Ok(bits),
            Err(_refused) => Err(SszFault::NoMemory),
        }
    }
}

/// The bits of the whole bytes, and those of the last byte below its highest 1, which is at the place.
fn before_delimiter(alloc: Global, front: &[u8], last: u8, place: u32) -> Result<BitList, NoMemory>
    requires in_byte { place < 8 }
    requires low { 2 ^ place ≤ last }
    requires high { last < 2 * 2 ^ place }
    requires room { 8 * length front.now + place < 2 ^ 64 }
    ensures { IfOk result (λ b. b ≡ whole_bits front.now ++ number_bits place last) }
{
    let len = 8 * (front.len() as u64) + u64::from(place);
    match Vec::from_slice(alloc, front) {
        Ok(mut bytes) => {
            if place == 0 {
                return Ok(BitList { bytes, len });
            }
            match bytes.push(last - (1 << place)) {
                Ok(()) => Ok(BitList { bytes, len }),
                Err(_refused) => Err(NoMemory),
            }
        }
        Err(_refused) => Err(NoMemory),
    }
}

/// A list of bits that was written is read again.
#[tactic(auto, using(crate::specs::laws::BitLists::bit_list_complete))]
pub fn bits_read_back()
    ensures { (limit : ℕ) (bits : List Bool) → length bits ≤ limit → parse_bit_list limit (bit_list_bytes bits) ≡ Some bits }
{}

/// Two lists of bits never share a writing.
#[tactic(auto, using(crate::specs::laws::BitLists::one_bit_list))]
pub fn one_writing_of_bits()
    ensures { (a b : List Bool) → bit_list_bytes a ≡ bit_list_bytes b → a ≡ b }
{}
