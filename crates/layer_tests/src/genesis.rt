//! A genesis state of 64 validators: its roots, and that the check takes it.

ghost use Rattle.spec_state.specs.Writing.{HasWriting};

use bc_preset::Preset;
use beacon_state::{State, genesis_check};
use beacon_types::empty_body_root;
use hash_tree::Root;
use ssz_codec::SszFault;
use std::alloc::{AllocError, Global};
use std::test::Fail;

const MIX: Root = [
    0x37, 0x47, 0x08, 0xff, 0xf7, 0x71, 0x9d, 0xd5, 0x97, 0x9e, 0xc8, 0x75, 0xd5, 0x6c, 0xd2, 0x28,
    0x6f, 0x6d, 0x3c, 0xf7, 0xec, 0x31, 0x7a, 0x3b, 0x25, 0x63, 0x2a, 0xab, 0x28, 0xec, 0x37, 0xbb,
];

const VALIDATORS_ROOT: Root = [
    0x88, 0x81, 0x93, 0x77, 0x97, 0xc6, 0xcf, 0x82, 0xf9, 0xaf, 0xd5, 0x58, 0xb4, 0x26, 0x81, 0x4d,
    0x4b, 0xf3, 0x1d, 0xfd, 0x9d, 0xb2, 0xa8, 0x7b, 0x1a, 0xd5, 0x3f, 0x66, 0xfc, 0x78, 0x43, 0xed,
];

const BODY_ROOT: Root = [
    0xcc, 0xb6, 0x24, 0x60, 0x69, 0x2b, 0xe0, 0xec, 0x81, 0x3b, 0x56, 0xbe, 0x97, 0xf6, 0x8a, 0x82,
    0xcf, 0x57, 0xab, 0xc1, 0x02, 0xe2, 0x7b, 0xf4, 0x9e, 0xbf, 0x41, 0x90, 0xff, 0x22, 0xee, 0xdd,
];

const BLOCK_ROOT: Root = [
    0xb0, 0x19, 0x32, 0xa9, 0xd3, 0xf4, 0xb7, 0x4b, 0x78, 0x99, 0x68, 0xdc, 0x98, 0x21, 0xc2, 0xb5,
    0x3a, 0x25, 0x79, 0x13, 0xca, 0xb2, 0x7f, 0x17, 0x90, 0x8d, 0x8e, 0x45, 0x23, 0x93, 0x68, 0x60,
];

const STATE_ROOT: Root = [
    0x96, 0xa2, 0x89, 0x4b, 0x40, 0x1a, 0x84, 0x25, 0x9c, 0x13, 0xfd, 0x0b, 0x91, 0xbc, 0x9e, 0x6e,
    0x83, 0x0e, 0xe8, 0xbb, 0xe0, 0x7f, 0x32, 0xd6, 0xbc, 0xd5, 0x86, 0xce, 0xd0, 0x84, 0x05, 0xe1,
];

/// Where the six lists of the genesis of 64 validators begin.
const STARTS: &[(usize, u32)] = &[
    (4272, 7057),
    (4348, 7057),
    (4360, 7057),
    (4364, 14_801),
    (6928, 15_313),
    (6932, 15_313),
];

/// Puts bytes at a place.
pub fn place(bytes: &mut Vec<u8>, at: usize, part: &[u8]) {
    let mut next = at;
    for byte in part {
        if let Some(here) = bytes.get_mut(next) {
            *here = *byte;
        }
        next = next.wrapping_add(1);
    }
}

/// So many bytes of a state of the minimal preset: zero but for the offsets, which say where its lists begin.
pub fn state_bytes(
    alloc: Global,
    len: usize,
    starts: &[(usize, u32)],
) -> Result<Vec<u8>, AllocError> {
    let mut bytes = vec![in alloc; 0; len]?;
    for (at, start) in starts {
        place(&mut bytes, *at, &start.to_le_bytes());
    }
    Ok(bytes)
}

/// What is not zero in the fixed part of the genesis beside offsets, the validators and their balances.
fn place_fields(bytes: &mut Vec<u8>) {
    let balance = 32_000_000_000u64.to_le_bytes();
    place(bytes, 0, &1000u64.to_le_bytes());
    place(bytes, 8, &VALIDATORS_ROOT);
    place(bytes, 144, &BODY_ROOT);
    for i in 0..64 {
        let at = 7057 + 121 * i;
        place(bytes, 4368 + 32 * i, &MIX);
        place(bytes, at, &[i as u8]);
        place(bytes, at + 80, &balance);
        place(bytes, at + 105, &[255; 16]);
        place(bytes, 14_801 + 8 * i, &balance);
    }
}

/// A genesis of 64 validators.
pub fn genesis(alloc: Global) -> Result<Vec<u8>, AllocError> {
    let mut bytes = state_bytes(alloc, 15_313, STARTS)?;
    place_fields(&mut bytes);
    Ok(bytes)
}

/// Whether a state is written so.
fn is_written(alloc: Global, state: &State, bytes: &[u8]) -> bool
    requires { HasWriting state.now }
{
    match state.write(alloc) {
        Ok(written) => written.as_slice() == bytes,
        Err(_refused) => false,
    }
}

/// Whether the genesis of 64 validators has its roots and what is read of it, and the check takes it.
fn genesis_holds(state: &State) -> bool {
    let roots = (state.root() == STATE_ROOT)
        & (state.header_root() == BLOCK_ROOT)
        & (empty_body_root() == BODY_ROOT);
    let fields = (state.genesis_time() == 1000)
        & (state.validators_len() == 64)
        & (state.balances_at(63) == Some(32_000_000_000))
        & state.balances_at(64).is_none();
    roots & fields & genesis_check(state).is_ok()
}

/// Whether these bytes are read as the genesis of 64 validators, which is written as they are.
fn is_genesis(alloc: Global, bytes: &[u8]) -> bool {
    match State::read(alloc, &Preset::minimal(), bytes) {
        Ok(state) => is_written(alloc, &state, bytes) & genesis_holds(&state),
        Err(_fault) => false,
    }
}

/// Whether these bytes are no state.
fn is_no_state(alloc: Global, bytes: &[u8]) -> bool {
    matches!(
        State::read(alloc, &Preset::minimal(), bytes),
        Err(SszFault::NotAWriting)
    )
}

#[test]
fn roots_of_a_genesis(rt: HostRuntime) -> Result<(), Fail> {
    let bytes = genesis(rt.alloc())?;
    let holds = is_genesis(rt.alloc(), &bytes);
    assert!(rt; holds);
    Ok(())
}

#[test]
fn a_byte_less_is_no_state(rt: HostRuntime) -> Result<(), Fail> {
    let bytes = genesis(rt.alloc())?;
    let holds = bytes.len() == 15_313 && is_no_state(rt.alloc(), &bytes.as_slice()[1..]);
    assert!(rt; holds);
    Ok(())
}
