//! Two states, field by field in the order of the container (beacon-chain.md, "BeaconState").

use super::Difference;
use super::lists::{List, compare_lists};
use super::parts::{compare_checkpoints, compare_eth1_data};
use anyhow::Result;
use beacon_state::State;

/// The time of the beginning, the slot and the fork.
fn compare_versioning(ours: &State, theirs: &State, difference: &mut Difference) -> Result<()> {
    difference.number(
        "genesis_time",
        "",
        ours.genesis_time(),
        theirs.genesis_time(),
    )?;
    difference.bytes(
        "genesis_validators_root",
        "",
        &ours.genesis_validators_root(),
        &theirs.genesis_validators_root(),
    )?;
    difference.number("slot", "", ours.slot(), theirs.slot())?;
    let (one, other) = (ours.fork(), theirs.fork());
    difference.bytes(
        "fork",
        ".previous_version",
        &one.previous_version,
        &other.previous_version,
    )?;
    difference.bytes(
        "fork",
        ".current_version",
        &one.current_version,
        &other.current_version,
    )?;
    difference.number("fork", ".epoch", one.epoch, other.epoch)
}

/// The header of the latest block.
fn compare_headers(ours: &State, theirs: &State, difference: &mut Difference) -> Result<()> {
    let (one, other) = (ours.latest_block_header(), theirs.latest_block_header());
    difference.number("latest_block_header", ".slot", one.slot, other.slot)?;
    difference.number(
        "latest_block_header",
        ".proposer_index",
        one.proposer_index,
        other.proposer_index,
    )?;
    difference.bytes(
        "latest_block_header",
        ".parent_root",
        &one.parent_root,
        &other.parent_root,
    )?;
    difference.bytes(
        "latest_block_header",
        ".state_root",
        &one.state_root,
        &other.state_root,
    )?;
    difference.bytes(
        "latest_block_header",
        ".body_root",
        &one.body_root,
        &other.body_root,
    )
}

/// The roots of the latest blocks and states, and of older ones.
fn compare_history(ours: &State, theirs: &State, difference: &mut Difference) -> Result<()> {
    compare_lists(ours, theirs, List::BlockRoots, difference)?;
    compare_lists(ours, theirs, List::StateRoots, difference)?;
    compare_lists(ours, theirs, List::HistoricalRoots, difference)
}

/// What is of the deposit contract, and the registry.
fn compare_registry(ours: &State, theirs: &State, difference: &mut Difference) -> Result<()> {
    compare_eth1_data(
        "eth1_data",
        &ours.eth1_data(),
        &theirs.eth1_data(),
        difference,
    )?;
    compare_lists(ours, theirs, List::Eth1DataVotes, difference)?;
    difference.number(
        "eth1_deposit_index",
        "",
        ours.eth1_deposit_index(),
        theirs.eth1_deposit_index(),
    )?;
    compare_lists(ours, theirs, List::Validators, difference)?;
    compare_lists(ours, theirs, List::Balances, difference)
}

/// The mixes, the slashed balances and the pending attestations.
fn compare_epochs(ours: &State, theirs: &State, difference: &mut Difference) -> Result<()> {
    compare_lists(ours, theirs, List::RandaoMixes, difference)?;
    compare_lists(ours, theirs, List::Slashings, difference)?;
    compare_lists(ours, theirs, List::PreviousEpochAttestations, difference)?;
    compare_lists(ours, theirs, List::CurrentEpochAttestations, difference)
}

/// Which epochs are justified, and the checkpoints.
fn compare_finality(ours: &State, theirs: &State, difference: &mut Difference) -> Result<()> {
    let (one, other) = (ours.justification_bits(), theirs.justification_bits());
    for index in 0..4 {
        let name = format!(in difference.alloc; "justification_bits[{index}]")?;
        difference.truth(name.as_str(), "", one[index], other[index])?;
    }
    let (one, other) = (
        ours.previous_justified_checkpoint(),
        theirs.previous_justified_checkpoint(),
    );
    compare_checkpoints("previous_justified_checkpoint", &one, &other, difference)?;
    let (one, other) = (
        ours.current_justified_checkpoint(),
        theirs.current_justified_checkpoint(),
    );
    compare_checkpoints("current_justified_checkpoint", &one, &other, difference)?;
    let (one, other) = (ours.finalized_checkpoint(), theirs.finalized_checkpoint());
    compare_checkpoints("finalized_checkpoint", &one, &other, difference)
}

/// Notes where two states differ: the first field that does, and then the first place in it; or their roots.
pub fn compare_states(ours: &State, theirs: &State, difference: &mut Difference) -> Result<()> {
    compare_versioning(ours, theirs, difference)?;
    compare_headers(ours, theirs, difference)?;
    compare_history(ours, theirs, difference)?;
    compare_registry(ours, theirs, difference)?;
    compare_epochs(ours, theirs, difference)?;
    compare_finality(ours, theirs, difference)?;
    difference.bytes("hash_tree_root", "", &ours.root(), &theirs.root())
}
