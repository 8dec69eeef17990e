//! The root of the default body, operations copied and compared, and clashes. Whole blocks, read and damaged, are in vectors.

use beacon_types::{
    Attestation, AttesterSlashing, BeaconBlock, SignedBeaconBlock, empty_body_root,
};
use fork_store::clash;
use hash_tree::{Leaf, Root};
use ssz_codec::{ListValue, Ssz, one_writing, reads_back};
use std::alloc::Global;

// The roots below were computed beside this code, from simple-serialize.md alone.
const DEFAULT_BODY: Root = [
    0xcc, 0xb6, 0x24, 0x60, 0x69, 0x2b, 0xe0, 0xec, 0x81, 0x3b, 0x56, 0xbe, 0x97, 0xf6, 0x8a, 0x82,
    0xcf, 0x57, 0xab, 0xc1, 0x02, 0xe2, 0x7b, 0xf4, 0x9e, 0xbf, 0x41, 0x90, 0xff, 0x22, 0xee, 0xdd,
];

// That of the signed block whose fields are all zero or empty.
const DEFAULT_SIGNED_BLOCK: Root = [
    0x01, 0x66, 0x23, 0x74, 0x67, 0xe5, 0xce, 0x84, 0x29, 0x98, 0x12, 0x0a, 0xf9, 0x78, 0xd6, 0xbe,
    0x57, 0xfb, 0xa5, 0xc0, 0xdc, 0xe5, 0x93, 0x34, 0x4a, 0xd7, 0x26, 0x6f, 0x34, 0xe4, 0xac, 0x9c,
];

/// Whether a value is written so.
fn is_written<T: Ssz>(alloc: Global, value: &T, bytes: &[u8]) -> bool {
    match value.write(alloc) {
        Ok(written) => written.as_slice() == bytes,
        Err(_refused) => false,
    }
}

/// Whether the default block is written so, and has these roots.
fn default_block_holds(alloc: Global, block: &SignedBeaconBlock, bytes: &[u8]) -> bool {
    reads_back::<SignedBeaconBlock>();
    one_writing::<BeaconBlock>();
    (block.message.body.root() == DEFAULT_BODY)
        & (block.root() == DEFAULT_SIGNED_BLOCK)
        & is_written(alloc, block, bytes)
}

/// The writing of the default block.
fn default_block() -> [u8; 404] {
    let mut bytes = [0; 404];
    bytes[0] = 100;
    bytes[180] = 84;
    for at in [384, 388, 392, 396, 400] {
        bytes[at] = 220;
    }
    bytes
}

/// Whether the default block is read of its writing.
fn default_block_is_read(alloc: Global, bytes: &[u8]) -> bool {
    match SignedBeaconBlock::read(alloc, bytes) {
        Ok(block) => default_block_holds(alloc, &block, bytes),
        Err(_fault) => false,
    }
}

#[test]
fn default_roots(rt: HostRuntime) {
    assert!(rt; empty_body_root() == DEFAULT_BODY);
    assert!(rt; default_block_is_read(rt.alloc(), &default_block()));
}

/// Whether a value equals its copy.
fn is_copied<T: ListValue>(value: &T) -> bool {
    match value.copied() {
        Ok(copy) => value.same(&copy),
        Err(_refused) => false,
    }
}

/// Whether a value differs from the one that is read of these bytes.
fn differs<T: Ssz + ListValue>(alloc: Global, value: &T, bytes: &[u8]) -> bool {
    match T::read(alloc, bytes) {
        Ok(other) => !value.same(&other),
        Err(_fault) => false,
    }
}

/// Whether what is read of some bytes equals its copy, and differs from what is read of the others.
fn is_told_apart<T: Ssz + ListValue>(alloc: Global, bytes: &[u8], others: &[u8]) -> bool {
    match T::read(alloc, bytes) {
        Ok(value) => is_copied(&value) & differs(alloc, &value, others),
        Err(_fault) => false,
    }
}

/// The writing of an attestation with these bits.
fn attestation(bits: u8) -> [u8; 229] {
    let mut bytes = [0; 229];
    bytes[0] = 228;
    bytes[228] = bits;
    bytes
}

/// The writing of an attester slashing with this last byte.
fn attester_slashing(last: u8) -> [u8; 464] {
    let mut bytes = [0; 464];
    bytes[0] = 8;
    bytes[4] = 236;
    bytes[8] = 228;
    bytes[236] = 228;
    bytes[463] = last;
    bytes
}

#[test]
fn operations_are_copied(rt: HostRuntime) {
    let alloc = rt.alloc();
    assert!(rt; is_told_apart::<Attestation>(alloc, &attestation(5), &attestation(7)));
    assert!(rt;
        is_told_apart::<AttesterSlashing>(alloc, &attester_slashing(0), &attester_slashing(1))
    );
}

/// The writing of a block that is empty but for its graffiti's first byte.
fn empty_block(graffiti: u8) -> [u8; 304] {
    let mut bytes = [0; 304];
    bytes[80] = 84;
    for at in [284, 288, 292, 296, 300] {
        bytes[at] = 220;
    }
    bytes[252] = graffiti;
    bytes
}

/// Whether an empty block clashes by its roots alone.
fn clashes_alone(block: &BeaconBlock) -> bool {
    !clash([1; 32], [2; 32], None, block)
        & clash([0; 32], [2; 32], None, block)
        & clash([1; 32], [0; 32], None, block)
}

/// Whether a block equals a kept one where it is the same, and clashes with it where it is another one.
fn is_compared(kept: &BeaconBlock, block: &BeaconBlock, same: bool) -> bool {
    (kept.equals(block) == same) & (clash([1; 32], [2; 32], Some(kept), block) != same)
}

/// Whether the empty block with this graffiti is compared so with a kept one.
fn with_kept(alloc: Global, kept: &BeaconBlock, graffiti: u8) -> bool {
    match BeaconBlock::read(alloc, &empty_block(graffiti)) {
        Ok(block) => is_compared(kept, &block, graffiti == 0),
        Err(_fault) => false,
    }
}

/// Whether the empty block clashes by its roots, and is compared so with itself and with another one.
fn empty_block_holds(alloc: Global) -> bool {
    match BeaconBlock::read(alloc, &empty_block(0)) {
        Ok(kept) => {
            clashes_alone(&kept) & with_kept(alloc, &kept, 0) & with_kept(alloc, &kept, 1)
        }
        Err(_fault) => false,
    }
}

#[test]
fn blocks_clash_or_are_equal(rt: HostRuntime) {
    assert!(rt; empty_block_holds(rt.alloc()));
}
