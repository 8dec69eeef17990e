//! Roots of zero values, and containers and lists of them, read and written again.

ghost use Rattle.std.proofs.Common.{lit≤};

use bc_words::NoMemory;
use beacon_types::{
    AttestingIndices, BeaconBlockHeader, Checkpoint, Deposit, DepositProof, Eth1Data, Fork,
    IndexedAttestation, PendingAttestation, Validator, VoluntaryExit,
};
use hash_tree::{Leaf, Root};
use ssz_codec::{LimitedList, ListLimit, Ssz, SszFault, VariableList, one_writing, reads_back};
use std::alloc::Global;
use std::process::Abort;
use std::test::Fail;

const TWO_ZERO_LEAVES: Root = [
    0xf5, 0xa5, 0xfd, 0x42, 0xd1, 0x6a, 0x20, 0x30, 0x27, 0x98, 0xef, 0x6e, 0xd3, 0x09, 0x97, 0x9b,
    0x43, 0x00, 0x3d, 0x23, 0x20, 0xd9, 0xf0, 0xe8, 0xea, 0x98, 0x31, 0xa9, 0x27, 0x59, 0xfb, 0x4b,
];

const FOUR_ZERO_LEAVES: Root = [
    0xdb, 0x56, 0x11, 0x4e, 0x00, 0xfd, 0xd4, 0xc1, 0xf8, 0x5c, 0x89, 0x2b, 0xf3, 0x5a, 0xc9, 0xa8,
    0x92, 0x89, 0xaa, 0xec, 0xb1, 0xeb, 0xd0, 0xa9, 0x6c, 0xde, 0x60, 0x6a, 0x74, 0x8b, 0x5d, 0x71,
];

const EIGHT_ZERO_LEAVES: Root = [
    0xc7, 0x80, 0x09, 0xfd, 0xf0, 0x7f, 0xc5, 0x6a, 0x11, 0xf1, 0x22, 0x37, 0x06, 0x58, 0xa3, 0x53,
    0xaa, 0xa5, 0x42, 0xed, 0x63, 0xe4, 0x4c, 0x4b, 0xc1, 0x5f, 0xf4, 0xcd, 0x10, 0x5a, 0xb3, 0x3c,
];

// The roots below were computed beside this code, from simple-serialize.md alone.
const ZERO_INDEXED_ATTESTATION: Root = [
    0x4c, 0xda, 0x58, 0xc1, 0xf8, 0x27, 0xe8, 0x86, 0xe8, 0x64, 0x94, 0xcb, 0xf7, 0x1c, 0xca, 0x10,
    0x96, 0xc3, 0xd1, 0x6e, 0xb5, 0xcc, 0x8a, 0xc6, 0x94, 0x9f, 0xba, 0xf3, 0x60, 0xa9, 0x72, 0x1e,
];

// That of the indices 1 to 5, and zeros else.
const FIVE_INDICES: Root = [
    0x2f, 0x50, 0x56, 0x65, 0xff, 0xc1, 0xd9, 0x75, 0x31, 0x98, 0xcc, 0x73, 0x20, 0x3a, 0xb8, 0x8c,
    0xf0, 0xe3, 0xa9, 0xde, 0x96, 0x92, 0x5f, 0x44, 0x3c, 0x8e, 0x5a, 0x8f, 0x14, 0x25, 0x50, 0x3d,
];

const ZERO_DEPOSIT: Root = [
    0xa1, 0x4b, 0x69, 0x9c, 0xfc, 0xbf, 0xe2, 0x4b, 0xef, 0xcd, 0xd2, 0xc8, 0xbf, 0xd6, 0xa9, 0xed,
    0x5c, 0x4a, 0x9c, 0x16, 0x7a, 0xf3, 0x73, 0xbf, 0x02, 0xda, 0xfb, 0x6f, 0xf6, 0x64, 0xc2, 0xc8,
];

#[test]
fn zero_roots(rt: HostRuntime) {
    let checkpoint = Checkpoint {
        epoch: 0,
        root: [0; 32],
    };
    let exit = VoluntaryExit {
        epoch: 0,
        validator_index: 0,
    };
    let eth1_data = Eth1Data {
        deposit_root: [0; 32],
        deposit_count: 0,
        block_hash: [0; 32],
    };
    let fork = Fork {
        previous_version: [0; 4],
        current_version: [0; 4],
        epoch: 0,
    };
    let header = BeaconBlockHeader {
        slot: 0,
        proposer_index: 0,
        parent_root: [0; 32],
        state_root: [0; 32],
        body_root: [0; 32],
    };
    let roots = [
        (checkpoint.root(), TWO_ZERO_LEAVES),
        (exit.root(), TWO_ZERO_LEAVES),
        ([0; 48].root(), TWO_ZERO_LEAVES),
        (eth1_data.root(), FOUR_ZERO_LEAVES),
        (fork.root(), FOUR_ZERO_LEAVES),
        ([0; 96].root(), FOUR_ZERO_LEAVES),
        (header.root(), EIGHT_ZERO_LEAVES),
    ];
    for (found, expected) in roots {
        assert!(rt; found == expected);
    }
}

/// The root of a value, if it is written as these bytes.
fn root_of_written<T: Ssz>(alloc: Global, value: &T, bytes: &[u8]) -> Result<Root, SszFault> {
    match value.write(alloc) {
        Ok(written) if written.as_slice() == bytes => Ok(value.root()),
        Ok(_) => Err(SszFault::NotAWriting),
        Err(NoMemory) => Err(SszFault::NoMemory),
    }
}

/// The root of the value that is read of these bytes, if it is written as they are.
fn root_again<T: Ssz>(alloc: Global, bytes: &[u8]) -> Result<Root, SszFault> {
    match T::read(alloc, bytes) {
        Ok(value) => root_of_written(alloc, &value, bytes),
        Err(fault) => Err(fault),
    }
}

/// The bits and the inclusion delay of a vote are those of one bit.
fn has_one_bit(rt: &impl Abort, pending: &PendingAttestation) {
    let bits = &pending.aggregation_bits;
    assert!(rt; (bits.len(), bits.get(0), pending.inclusion_delay) == (1, Some(true), 1));
}

#[test]
fn one_bit_pending(rt: HostRuntime) -> Result<(), Fail> {
    let mut bytes = [0; 149];
    bytes[0] = 148;
    bytes[132] = 1;
    bytes[148] = 3;
    assert!(rt; root_again::<PendingAttestation>(rt.alloc(), &bytes).is_ok());
    reads_back::<PendingAttestation>();
    one_writing::<Validator>();
    match PendingAttestation::read(rt.alloc(), &bytes) {
        Ok(pending) => Ok(has_one_bit(&rt, &pending)),
        Err(fault) => Err(fault.into()),
    }
}

#[test]
fn a_wrong_offset_is_no_pending(rt: HostRuntime) {
    let mut bytes = [0; 149];
    bytes[0] = 149;
    bytes[148] = 3;
    assert!(rt; root_again::<PendingAttestation>(rt.alloc(), &bytes).is_err());
}

#[test]
fn indexed_attestations(rt: HostRuntime) {
    let mut five = [0; 268];
    five[0] = 228;
    for index in 0..5usize {
        five[228 + 8 * index] = index as u8 + 1;
    }
    let mut zero = [0; 228];
    zero[0] = 228;
    let rows = [
        (five.as_slice(), Ok(FIVE_INDICES)),
        (zero.as_slice(), Ok(ZERO_INDEXED_ATTESTATION)),
        ([0; 228].as_slice(), Err(SszFault::NotAWriting)),
    ];
    for (bytes, root) in rows {
        assert!(rt; root_again::<IndexedAttestation>(rt.alloc(), bytes) == root);
    }
}

#[test]
fn indices_from_a_list(rt: HostRuntime) -> Result<(), Fail> {
    let list = Vec::from_slice(rt.alloc(), &[1, 2, 3, 4, 5])?;
    let len = AttestingIndices::from_vec(list).len();
    assert!(rt; len == 5);
    Ok(())
}

/// The limit of a list of two.
#[derive(Drop)]
struct Two;

impl ListLimit for Two {
    ghost LIMIT = { 2 };

    const LIMIT: u64 = 2;

    ghost low = { lit≤ tt };
}

// The root of the list of two attestations without indices, of at most two, computed as above.
const TWO_ATTESTATIONS: Root = [
    0x8b, 0x69, 0x80, 0x96, 0xde, 0x02, 0xa0, 0x8f, 0x72, 0x74, 0x6f, 0x5e, 0x1c, 0xc5, 0x04, 0x2f,
    0xaf, 0xe9, 0xf6, 0x3a, 0x6b, 0x60, 0xe1, 0xc5, 0x0f, 0xa2, 0x77, 0x45, 0x45, 0x29, 0xa0, 0x98,
];

#[test]
fn two_attestations(rt: HostRuntime) {
    let mut bytes = [0; 464];
    bytes[0] = 8;
    bytes[4] = 236;
    bytes[8] = 228;
    bytes[236] = 228;
    let root = root_again::<VariableList<IndexedAttestation, Two>>(rt.alloc(), &bytes);
    assert!(rt; root == Ok(TWO_ATTESTATIONS));
    bytes[4] = 235;
    let root = root_again::<VariableList<IndexedAttestation, Two>>(rt.alloc(), &bytes);
    assert!(rt; root == Err(SszFault::NotAWriting));
}

#[test]
fn a_list_with_a_limit(rt: HostRuntime) {
    assert!(rt; root_again::<LimitedList<Root, Two>>(rt.alloc(), &[7; 64]).is_ok());
    assert!(rt; root_again::<LimitedList<Root, Two>>(rt.alloc(), &[7; 96]).is_err());
}

/// Whether a deposit has 33 roots, and equals its copy.
fn is_copied(deposit: &Deposit) -> Result<bool, NoMemory> {
    let copy = deposit.copy()?;
    Ok(copy.proof.as_slice().len() == 33 && copy.equals(deposit))
}

/// Whether a branch from a list of roots is that of the deposit that is all zero.
fn has_zero_proof(alloc: Global, zero: &Deposit) -> Result<bool, NoMemory> {
    let proof = DepositProof::from_vec(vec![in alloc; [0; 32]; 33]?);
    Ok(proof.equals(&zero.proof))
}

/// The deposit that is all zero has its branch, and is copied.
fn zero_deposit_holds(rt: &(impl AllocGlobal + Abort), zero: &Deposit) {
    assert!(rt; has_zero_proof(rt.alloc(), zero) == Ok(true));
    assert!(rt; is_copied(zero) == Ok(true));
}

#[test]
fn deposits(rt: HostRuntime) -> Result<(), Fail> {
    let bytes = [0; 1240];
    assert!(rt; root_again::<Deposit>(rt.alloc(), &bytes) == Ok(ZERO_DEPOSIT));
    assert!(rt; root_again::<Deposit>(rt.alloc(), &bytes[..1239]).is_err());
    one_writing::<Deposit>();
    match Deposit::read(rt.alloc(), &bytes) {
        Ok(zero) => Ok(zero_deposit_holds(&rt, &zero)),
        Err(fault) => Err(fault.into()),
    }
}
