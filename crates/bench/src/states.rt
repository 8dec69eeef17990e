//! States to measure on, as bytes and read: validators that were active from genesis on, and on mainnet the votes of all of
//! them that wait for an epoch's end.

use crate::ratio::{Time, now, time_since};
use anyhow::Result;
use bc_preset::Preset;
use beacon_state::State;
use beacon_types::empty_body_root;
use std::alloc::{AllocError, Global};
use std::time::CpuClock;

/// The configuration that goes with the mainnet states.
pub const CONFIG: &[u8] =
    b"PRESET_BASE: 'mainnet'\nSECONDS_PER_SLOT: 12\nMIN_VALIDATOR_WITHDRAWABILITY_DELAY: 256\nSHARD_COMMITTEE_PERIOD: 256\nEJECTION_BALANCE: 16000000000\nMIN_PER_EPOCH_CHURN_LIMIT: 4\nCHURN_LIMIT_QUOTIENT: 65536\nPROPOSER_SCORE_BOOST: 40\n";

/// How many validators a state has at most.
pub const MOST: u32 = 262_144;

/// The length of a validator.
const VALIDATOR: usize = 121;

/// The length of a pending attestation: its fixed part, and 128 bits with their delimiter.
const PENDING: usize = 148 + 17;

/// How many pending attestations a list has at most.
const MOST_PENDING: u32 = 4096;

/// Where a preset has the parts of a state whose place its limits decide.
#[derive(Clone, Copy)]
pub struct Layout {
    /// Where the part behind the latest roots begins.
    historical: u32,
    /// Where the part behind the mixes and slashed balances begins.
    pending: u32,
}

impl Layout {
    /// That of the minimal preset.
    pub fn minimal() -> Layout {
        Layout {
            historical: 4_272,
            pending: 6_928,
        }
    }

    /// That of mainnet.
    pub fn mainnet() -> Layout {
        Layout {
            historical: 524_464,
            pending: 2_687_248,
        }
    }
}

/// What a state holds.
#[derive(Clone, Copy)]
pub struct Shape {
    /// How many validators, a multiple of 4,096 where there are votes.
    pub validators: u32,
    /// The state's slot.
    pub slot: u64,
    /// How many committees of 128 voted in the previous epoch, one slot after another from its first.
    pub previous: u32,
    /// How many did in the current epoch.
    pub current: u32,
}

impl Shape {
    /// A state of genesis, of so many validators.
    pub fn at_genesis(validators: u32) -> Shape {
        Shape {
            validators,
            slot: 0,
            previous: 0,
            current: 0,
        }
    }
}

/// Where the parts of a state begin that differ in length, and where it ends.
#[derive(Clone, Copy)]
struct Places {
    /// The registry.
    validators: usize,
    /// The balances.
    balances: usize,
    /// The pending attestations of the previous epoch.
    previous: usize,
    /// Those of the current epoch.
    current: usize,
    /// The end.
    end: usize,
}

/// The places of a state's parts.
fn places_of(layout: Layout, shape: &Shape) -> Places {
    let count = shape.validators.min(MOST) as usize;
    let validators = layout.pending as usize + 129;
    let balances = validators + VALIDATOR * count;
    let previous = balances + 8 * count;
    let current = previous + (4 + PENDING) * (shape.previous.min(MOST_PENDING) as usize);
    Places {
        validators,
        balances,
        previous,
        current,
        end: current + (4 + PENDING) * (shape.current.min(MOST_PENDING) as usize),
    }
}

/// Puts a piece at a place, where there is room for it.
pub fn put(bytes: &mut [u8], at: usize, piece: &[u8]) {
    if at <= bytes.len() && piece.len() <= bytes.len() - at {
        bytes[at..at + piece.len()].copy_from_slice(piece);
    }
}

/// Puts a number of eight bytes at a place.
pub fn put_number(bytes: &mut [u8], at: usize, number: u64) {
    put(bytes, at, &number.to_le_bytes());
}

/// Puts an offset, which has four bytes, at a place.
pub fn put_offset(bytes: &mut [u8], at: usize, offset: usize) {
    put(bytes, at, &(offset as u64).to_le_bytes()[..4]);
}

/// Puts the vote of a committee of 128, all of whom take part: slot and index, the epoch of the target, and the bits. All
/// roots are zero, as those of the state are.
pub fn put_vote(bytes: &mut [u8], content: usize, bits: usize, slot: u64, index: u64) {
    put_number(bytes, content, slot);
    put_number(bytes, content.wrapping_add(8), index);
    put_number(bytes, content.wrapping_add(88), slot / 32);
    put(bytes, bits, &[255; 16]);
    put(bytes, bits.wrapping_add(16), &[1]);
}

/// Puts a validator that was active from genesis on, and its balance.
fn put_validator(bytes: &mut [u8], at: usize, balance_at: usize, index: u32) {
    put(bytes, at, &index.to_le_bytes());
    put_number(bytes, at.wrapping_add(80), 32_000_000_000);
    put(bytes, at.wrapping_add(105), &[255; 16]);
    put_number(bytes, balance_at, 32_000_000_000);
}

/// Puts the validators and their balances.
fn put_validators(bytes: &mut [u8], places: &Places, count: u32) {
    for index in 0..count {
        let at = places.validators.wrapping_add(VALIDATOR * index as usize);
        let balance_at = places.balances.wrapping_add(8 * index as usize);
        put_validator(bytes, at, balance_at, index);
    }
}

/// Puts a pending attestation, where it stands behind the begin of its list, and the offset that leads to it.
fn put_pending(bytes: &mut [u8], offset_at: usize, at: usize, start: usize, slot: u64, index: u64) {
    put_offset(bytes, offset_at, start);
    put_offset(bytes, at, 148);
    put_vote(bytes, at.wrapping_add(4), at.wrapping_add(148), slot, index);
    put_number(bytes, at.wrapping_add(132), 1);
}

/// Puts a list of the votes of committees, from the first slot of an epoch on.
fn put_list(bytes: &mut [u8], list: usize, count: u32, epoch: u64, validators: u32) {
    let per_slot = u64::from((validators / 4096).max(1));
    for number in 0..count {
        let place = u64::from(number);
        let slot = epoch.wrapping_mul(32).wrapping_add(place / per_slot);
        let start = 4 * count as usize + PENDING * number as usize;
        let offset_at = list.wrapping_add(4 * number as usize);
        let at = list.wrapping_add(start);
        put_pending(bytes, offset_at, at, start, slot, place % per_slot);
    }
}

/// Puts what the front of a state has: its slot, the header's body root, and offsets.
fn put_front(bytes: &mut [u8], layout: Layout, slot: u64, places: &Places) {
    let historical = layout.historical as usize;
    let pending = layout.pending as usize;
    put_number(bytes, 40, slot);
    put(bytes, 144, &empty_body_root());
    put_offset(bytes, historical, places.validators);
    put_offset(bytes, historical + 76, places.validators);
    put_offset(bytes, historical + 88, places.validators);
    put_offset(bytes, historical + 92, places.balances);
    put_offset(bytes, pending, places.previous);
    put_offset(bytes, pending + 4, places.current);
}

/// Puts all that a state has.
fn put_state(bytes: &mut [u8], layout: Layout, shape: &Shape, places: &Places) {
    let validators = shape.validators.min(MOST);
    let epoch = shape.slot / 32;
    let previous = shape.previous.min(MOST_PENDING);
    let current = shape.current.min(MOST_PENDING);
    put_front(bytes, layout, shape.slot, places);
    put_list(
        bytes,
        places.previous,
        previous,
        epoch.saturating_sub(1),
        validators,
    );
    put_list(bytes, places.current, current, epoch, validators);
    put_validators(bytes, places, validators);
}

/// The bytes of the state: all zero but for its slot, offsets, the header's body root, validators, balances and votes.
pub fn state_bytes(alloc: Global, layout: Layout, shape: &Shape) -> Result<Vec<u8>, AllocError> {
    let places = places_of(layout, shape);
    let mut bytes = vec![in alloc; 0u8; places.end]?;
    put_state(&mut bytes, layout, shape, &places);
    Ok(bytes)
}

/// A state that was read, and the time of that.
#[derive(Drop)]
pub struct Reading {
    /// The state.
    pub state: State,
    /// The time.
    pub time: Time,
}

/// Reads the mainnet state of this shape.
pub fn read_mainnet(rt: &(impl AllocGlobal + CpuClock), shape: &Shape) -> Result<Reading> {
    let bytes = state_bytes(rt.alloc(), Layout::mainnet(), shape)?;
    let begin = now(rt);
    match State::read(rt.alloc(), &Preset::mainnet(), &bytes) {
        Ok(state) => Ok(Reading {
            state,
            time: time_since(rt, begin),
        }),
        Err(fault) => Err(fault.into()),
    }
}
