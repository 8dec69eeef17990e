//! The writing and the root of single containers (simple-serialize.md).

ghost use Rattle.std.specs.Prelude.{◌≤◌, ◌^◌};
ghost use Rattle.bc_preset.specs.Presets.{IsPreset};
ghost use Rattle.spec_state.specs.Writing.{HasWriting};

use crate::published::case::Case;
use crate::published::difference::Difference;
use crate::published::verdict::{Outside, Verdict};
use anyhow::{Result, bail};
use bc_preset::Preset;
use bc_words::NoMemory;
use beacon_state::State;
use beacon_types::{
    Attestation, AttestationData, AttesterSlashing, BeaconBlock, BeaconBlockBody,
    BeaconBlockHeader, Checkpoint, Deposit, DepositData, Eth1Data, Fork, IndexedAttestation,
    PendingAttestation, ProposerSlashing, SignedBeaconBlock, SignedBeaconBlockHeader,
    SignedVoluntaryExit, Validator, VoluntaryExit,
};
use hash_tree::{Root, fields_root};
use ssz_codec::{Ssz, Writer, append_items, read_items, vector_root};
use std::alloc::Global;
use std::rt::Files;

/// The two forms of what was read from bytes: its writing, and its root.
#[derive(Drop)]
struct Forms {
    writing: Vec<u8>,
    root: Root,
}

/// A container that was read from the bytes.
fn told<T: Ssz>(alloc: Global, bytes: &[u8]) -> Result<Forms> {
    let value = T::read(alloc, bytes)?;
    Ok(Forms {
        writing: value.write(alloc)?,
        root: value.root(),
    })
}

/// The writing and the root of a state.
fn told_of(alloc: Global, state: &State) -> Result<Forms, NoMemory>
    requires { HasWriting state.now }
{
    Ok(Forms {
        writing: state.write(alloc)?,
        root: state.root(),
    })
}

/// A state that was read from the bytes.
fn told_state(alloc: Global, preset: &Preset, bytes: &[u8]) -> Result<Forms>
    requires { IsPreset preset.now }
{
    match State::read(alloc, preset, bytes) {
        Ok(state) => Ok(told_of(alloc, &state)?),
        Err(fault) => Err(fault.into()),
    }
}

/// The root of a vector of so many roots.
fn root_of_vector(roots: &[Root], count: u64) -> Result<Root>
    requires { count ≤ 2 ^ 40 }
{
    if roots.len() as u64 != count {
        bail!("the vector has another length");
    }
    Ok(vector_root(roots, count))
}

/// A batch of roots (beacon-chain.md, "HistoricalBatch") that was read from the bytes.
fn told_batch(alloc: Global, preset: &Preset, bytes: &[u8]) -> Result<Forms>
    requires { IsPreset preset.now }
{
    preset.bounds();
    let count = preset.slots_per_historical_root;
    let half = count as usize * 32;
    if bytes.len() != half * 2 {
        bail!("no batch has so many bytes");
    }
    let blocks = read_items::<Root>(alloc, &bytes[..half], 32, count as usize)?;
    let states = read_items::<Root>(alloc, &bytes[half..], 32, count as usize)?;
    let mut out = Writer::new(alloc);
    append_items(blocks.as_slice(), &mut out)?;
    append_items(states.as_slice(), &mut out)?;
    let roots = [
        root_of_vector(blocks.as_slice(), count)?,
        root_of_vector(states.as_slice(), count)?,
    ];
    Ok(Forms {
        writing: out.finish(),
        root: fields_root(&roots),
    })
}

/// A container of an operation or a block, None where there is none of this name.
fn told_of_block(alloc: Global, name: &str, bytes: &[u8]) -> Option<Result<Forms>> {
    match name {
        "Attestation" => Some(told::<Attestation>(alloc, bytes)),
        "AttesterSlashing" => Some(told::<AttesterSlashing>(alloc, bytes)),
        "BeaconBlock" => Some(told::<BeaconBlock>(alloc, bytes)),
        "BeaconBlockBody" => Some(told::<BeaconBlockBody>(alloc, bytes)),
        "Deposit" => Some(told::<Deposit>(alloc, bytes)),
        "IndexedAttestation" => Some(told::<IndexedAttestation>(alloc, bytes)),
        "ProposerSlashing" => Some(told::<ProposerSlashing>(alloc, bytes)),
        "SignedBeaconBlock" => Some(told::<SignedBeaconBlock>(alloc, bytes)),
        "SignedVoluntaryExit" => Some(told::<SignedVoluntaryExit>(alloc, bytes)),
        _ => None,
    }
}

/// A container of a state or in one of those, None where there is none of this name.
fn told_of_part(alloc: Global, name: &str, bytes: &[u8]) -> Option<Result<Forms>> {
    match name {
        "AttestationData" => Some(told::<AttestationData>(alloc, bytes)),
        "BeaconBlockHeader" => Some(told::<BeaconBlockHeader>(alloc, bytes)),
        "Checkpoint" => Some(told::<Checkpoint>(alloc, bytes)),
        "DepositData" => Some(told::<DepositData>(alloc, bytes)),
        "Eth1Data" => Some(told::<Eth1Data>(alloc, bytes)),
        "Fork" => Some(told::<Fork>(alloc, bytes)),
        "PendingAttestation" => Some(told::<PendingAttestation>(alloc, bytes)),
        "SignedBeaconBlockHeader" => Some(told::<SignedBeaconBlockHeader>(alloc, bytes)),
        "Validator" => Some(told::<Validator>(alloc, bytes)),
        "VoluntaryExit" => Some(told::<VoluntaryExit>(alloc, bytes)),
        _ => None,
    }
}

/// The container of this name that was read from the bytes, None where there is none of this name.
fn told_by_name(alloc: Global, preset: &Preset, name: &str, bytes: &[u8]) -> Option<Result<Forms>>
    requires { IsPreset preset.now }
{
    match name {
        "BeaconState" => Some(told_state(alloc, preset, bytes)),
        "HistoricalBatch" => Some(told_batch(alloc, preset, bytes)),
        _ => match told_of_block(alloc, name, bytes) {
            Some(told) => Some(told),
            None => told_of_part(alloc, name, bytes),
        },
    }
}

/// Notes where the two forms of a container are others than those of the case.
fn compare(alloc: Global, case: &Case, told: &Forms, bytes: &[u8]) -> Result<Verdict> {
    let root = case.root("root")?;
    let mut difference = Difference::new(alloc);
    difference.bytes("writing", "", told.writing.as_slice(), bytes)?;
    difference.bytes("hash_tree_root", "", &told.root, &root)?;
    Ok(difference.verdict())
}

/// Runs a case of `ssz_static`.
pub fn run(rt: &(impl Files + AllocGlobal), case: &Case, handler: &str) -> Result<Verdict> {
    let alloc = rt.alloc();
    let bytes = case.bytes(rt, "serialized")?;
    match told_by_name(alloc, case.config().preset(), handler, bytes.as_slice()) {
        Some(Ok(told)) => compare(alloc, case, &told, bytes.as_slice()),
        Some(Err(error)) => Err(error),
        None => Ok(Verdict::Outside(Outside::Container)),
    }
}
