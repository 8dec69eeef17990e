//! The file of deposits: its head and its deposits, and the genesis that they make (`docs/FORMATS.md`). The bytes come from the
//! file, and the state goes to a genesis file.

ghost use Rattle.std.specs.Prelude.{◌≡◌, ◌≤◌, ◌*◌, ◌^◌, take, length, IfOk, Ok};
ghost use Rattle.std.specs.Str.{bytes_eq};
ghost use Rattle.hash_tree.specs.Merkle.{bytes_to_uint64};
ghost use Rattle.bc_preset.specs.Presets.{IsPreset};
ghost use Rattle.spec_state.specs.States.{state_codec};
ghost use Rattle.spec_state.specs.Writing.{HasWriting};
ghost use Rattle.spec_genesis.specs.DepositsFile.{deposits_magic, deposits_file_of, genesis_file_of, made_of};
ghost use Rattle.spec_genesis.specs.MadeGenesis.{HoldsGenesis, IsGenesis};
ghost use Rattle.genesis_maker.specs.inside.Making.{GivesFile, ReadsFile, plain_of};

use crate::deposits::Deposits;
use crate::initialize_beacon_state_from_eth1::make_genesis;
use crate::stops::{DepositsStop, MakeStop};
use bc_preset::Preset;
use beacon_state::State;
use hash_tree::Root;
use spec_genesis::DepositsFault;
use std::alloc::Global;

/// The longest file of deposits, in bytes.
pub const MAX_DEPOSITS_LEN: usize = 1 << 30;

/// How many bytes stand before the deposits: the magic, the fork version, the genesis time and the eth1 block's hash.
pub const DEPOSITS_HEAD_LEN: usize = 48;

/// What a file of deposits holds.
#[derive(Drop)]
pub struct DepositsFile<'a> {
    /// The fork version.
    pub fork_version: [u8; 4],
    /// The genesis time, in seconds since 1970, GENESIS_DELAY already added.
    pub genesis_time: u64,
    /// The hash of the eth1 block.
    pub eth1_block_hash: Root,
    /// The deposits.
    pub deposits: Deposits<'a>,
}

/// Whether the file begins as one of deposits does.
#[tactic(auto, unfolding(spec_genesis::specs::DepositsFile::deposits_magic))]
fn has_magic(bytes: &[u8]) -> bool
    ensures { result ≡ bytes_eq (take 4 bytes.now) deposits_magic }
{
    bytes.starts_with(b"BCD1")
}

/// These bytes, whose number is known.
fn array_of<const N: usize>(bytes: &[u8]) -> [u8; N]
    requires { length bytes.now ≡ N }
    ensures { result ≡ bytes.now }
{
    match <[u8; N]>::try_from(bytes) {
        Ok(array) => array,
        Err(_) => unreachable!(),
    }
}

/// The number that eight bytes are, the lowest first.
fn bytes_to_uint64(bytes: &[u8]) -> u64
    requires { length bytes.now ≡ 8 }
    ensures { result ≡ bytes_to_uint64 bytes.now }
{
    u64::from_le_bytes(array_of::<8>(bytes))
}

/// What a file of deposits holds, or its first fault: `TooLong`, `BadMagic` (also of fewer than 4 bytes), or `Torn`, where it has
/// fewer than 48 bytes or the bytes behind them aren't a multiple of 184. A deposit that overflows is found by the making.
#[tactic(auto, unfolding(spec_genesis::specs::DepositsFile::deposits_file_of, spec_genesis::specs::DepositsFile::with_deposits))]
pub fn read_deposits_file(bytes: &[u8]) -> Result<DepositsFile<'_>, DepositsFault>
    ensures { ReadsFile result (deposits_file_of bytes.now) }
{
    if bytes.len() > MAX_DEPOSITS_LEN {
        return Err(DepositsFault::TooLong);
    }
    if !has_magic(bytes) {
        return Err(DepositsFault::BadMagic);
    }
    if bytes.len() < DEPOSITS_HEAD_LEN {
        return Err(DepositsFault::Torn);
    }
    let (head, rest) = bytes.split_at(DEPOSITS_HEAD_LEN);
    match Deposits::of(rest) {
        Some(deposits) => Ok(DepositsFile {
            fork_version: array_of::<4>(&head[4..8]),
            genesis_time: bytes_to_uint64(&head[8..16]),
            eth1_block_hash: array_of::<32>(&head[16..]),
            deposits,
        }),
        None => Err(DepositsFault::Torn),
    }
}

/// Makes the genesis of a file of deposits, or answers its first fault. The writing of the state is the genesis file, which is read
/// as this state.
pub fn genesis_of_file(alloc: Global, preset: &Preset, bytes: &[u8]) -> Result<State, DepositsStop>
    requires { IsPreset preset.now }
    ensures file { GivesFile result (genesis_file_of preset.now bytes.now) }
    ensures holds { IfOk result (λ state. HoldsGenesis preset.now ((state_codec state.preset).serialize state)) }
    ensures genesis { IfOk result (λ state. IsGenesis state) }
    ensures writing { IfOk result (λ state. HasWriting state) }
{
    match read_deposits_file(bytes) {
        Ok(file) => made_of(alloc, preset, file),
        Err(fault) => Err(DepositsStop::Fault(fault)),
    }
}

/// The genesis of what a file of deposits holds.
fn made_of(alloc: Global, preset: &Preset, file: DepositsFile<'_>) -> Result<State, DepositsStop>
    requires preset { IsPreset preset.now }
    requires short { length file.deposits * 184 ≤ 2 ^ 30 }
    ensures file { GivesFile result (made_of preset.now (Ok (plain_of file.entry))) }
    ensures genesis { IfOk result (λ state. IsGenesis state) }
    ensures writing { IfOk result (λ state. HasWriting state) }
{
    match make_genesis(
        alloc,
        preset,
        file.fork_version,
        file.genesis_time,
        file.eth1_block_hash,
        file.deposits,
    ) {
        Ok(state) => Ok(state),
        Err(MakeStop::Overflow(index)) => Err(DepositsStop::Fault(DepositsFault::Overflow(index))),
        Err(MakeStop::NoMemory) => Err(DepositsStop::NoMemory),
    }
}
