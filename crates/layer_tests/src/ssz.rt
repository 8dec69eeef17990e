//! Cutting bytes, and lists of bits.

ghost use Rattle.std.specs.Prelude.{◌≡◌, length};

use bc_words::NoMemory;
use hash_tree::Root;
use ssz_codec::{BitList, Cut};
use std::alloc::Global;
use std::process::Abort;
use std::test::Fail;

/// How many bytes are taken, or 99.
fn taken(cut: &mut Cut, n: usize) -> usize {
    match cut.take(n) {
        Some(part) => part.len(),
        None => 99,
    }
}

/// Whether pieces are taken one behind another, where they are there.
fn pieces_follow(bytes: &[u8]) -> bool {
    let mut cut = Cut::new(bytes);
    taken(&mut cut, 2) == 2 && taken(&mut cut, 4) == 99 && taken(&mut cut, 3) == 3
}

/// Whether bytes are cut at offsets that rise from the first one to their end at most.
fn parts_follow(bytes: &[u8]) -> bool {
    Cut::parts(bytes, 2, &[2, 4]).is_some()
        && Cut::parts(bytes, 2, &[3, 4]).is_none()
        && Cut::parts(bytes, 2, &[2, 6]).is_none()
}

#[test]
fn pieces_of_bytes(rt: HostRuntime) {
    let bytes = [1, 2, 3, 4, 5];
    assert!(rt; pieces_follow(&bytes));
    assert!(rt; parts_follow(&bytes));
}

/// Whether these bits are written so.
fn is_written(bits: &BitList, alloc: Global, bytes: &[u8]) -> bool {
    match bits.write(alloc) {
        Ok(written) => written.as_slice() == bytes,
        Err(_refused) => false,
    }
}

/// Whether bits equal their copy, and the copy is written so.
fn are_copied(bits: &BitList, alloc: Global, bytes: &[u8]) -> bool {
    match bits.copy() {
        Ok(copy) => copy.equals(bits) && is_written(&copy, alloc, bytes),
        Err(_refused) => false,
    }
}

/// Whether these bytes are read as so many bits at most, copied, and written as they were.
fn come_again(alloc: Global, bytes: &[u8], limit: u64) -> bool {
    match BitList::read(alloc, bytes, limit) {
        Ok(bits) => are_copied(&bits, alloc, bytes),
        Err(_fault) => false,
    }
}

/// Bytes, how many bits there may be, and whether they are a writing of so many at most.
const WRITINGS: [(&[u8], u64, bool); 10] = [
    (b"", 16, false),
    (b"\x00", 16, false),
    (b"\x01\x00", 16, false),
    (b"\x00\x00\x02", 16, false),
    (b"\x03", 0, false),
    (b"\x01", 2048, true),
    (b"\x0b", 3, true),
    (b"\x00\x01", 2048, true),
    (b"\xff\x80", 2048, true),
    (b"\x02\x03\x05", 2048, true),
];

#[test]
fn bits_of_small_writings(rt: HostRuntime) {
    for (bytes, limit, are_bits) in WRITINGS.iter() {
        assert!(rt; come_again(rt.alloc(), bytes, *limit) == *are_bits);
    }
}

/// Appends the bits 1, 0 and 1.
fn push_three(bits: &mut BitList) -> Result<(), NoMemory>
    requires { length bits.old ≡ 0 }
{
    bits.push(true)?;
    bits.push(false)?;
    bits.push(true)
}

#[test]
fn bits_one_by_one(rt: HostRuntime) -> Result<(), Fail> {
    let mut bits = BitList::new(rt.alloc());
    push_three(&mut bits)?;
    assert!(rt; is_written(&bits, rt.alloc(), b"\x0d"));
    Ok(())
}

/// The root of the one bit 1, of at most 2,048.
const ONE_BIT_ROOT: Root = [
    0x9e, 0x1f, 0xf0, 0x35, 0xa3, 0x2c, 0x3d, 0x30, 0x85, 0x07, 0x4e, 0x67, 0x63, 0x56, 0x98, 0x4c,
    0x07, 0x7f, 0x70, 0xbe, 0xd4, 0x78, 0x14, 0x95, 0x6a, 0x9e, 0xf8, 0x85, 0x2d, 0xcb, 0x81, 0x61,
];

/// It is one bit, with its root.
fn is_one_bit(rt: &impl Abort, one: &BitList) {
    assert!(rt; one.len() == 1);
    assert!(rt; one.get(0) == Some(true));
    assert!(rt; one.get(1) == None);
    assert!(rt; one.root(2048) == ONE_BIT_ROOT);
}

#[test]
fn one_bit(rt: HostRuntime) -> Result<(), Fail> {
    is_one_bit(&rt, &BitList::read(rt.alloc(), b"\x03", 1)?);
    Ok(())
}
