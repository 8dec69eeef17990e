//! The lists of two states, up to the first place where they differ.

use super::Difference;
use super::parts::{compare_validators, compare_votes};
use anyhow::Result;
use beacon_state::{Entry, State};
use beacon_types::PendingAttestation;
use hash_tree::Leaf;

/// A list of a state.
#[derive(Clone, Copy)]
pub(crate) enum List {
    BlockRoots,
    StateRoots,
    HistoricalRoots,
    Eth1DataVotes,
    Validators,
    Balances,
    RandaoMixes,
    Slashings,
    PreviousEpochAttestations,
    CurrentEpochAttestations,
}

impl List {
    /// The field's name.
    fn name(self) -> &'static str {
        match self {
            List::BlockRoots => "block_roots",
            List::StateRoots => "state_roots",
            List::HistoricalRoots => "historical_roots",
            List::Eth1DataVotes => "eth1_data_votes",
            List::Validators => "validators",
            List::Balances => "balances",
            List::RandaoMixes => "randao_mixes",
            List::Slashings => "slashings",
            List::PreviousEpochAttestations => "previous_epoch_attestations",
            List::CurrentEpochAttestations => "current_epoch_attestations",
        }
    }

    /// How many items there are.
    fn len(self, state: &State) -> u64 {
        match self {
            List::BlockRoots => state.block_roots_len(),
            List::StateRoots => state.state_roots_len(),
            List::HistoricalRoots => state.historical_roots_len(),
            List::Eth1DataVotes => state.eth1_data_votes_len(),
            List::Validators => state.validators_len(),
            List::Balances => state.balances_len(),
            List::RandaoMixes => state.randao_mixes_len(),
            List::Slashings => state.slashings_len(),
            List::PreviousEpochAttestations => state.previous_epoch_attestations_len(),
            List::CurrentEpochAttestations => state.current_epoch_attestations_len(),
        }
    }

    /// Whether the two have the same item at a place, or none.
    fn is_same_at(self, ours: &State, theirs: &State, i: u64) -> bool {
        match self {
            List::BlockRoots => ours.block_roots_at(i) == theirs.block_roots_at(i),
            List::StateRoots => ours.state_roots_at(i) == theirs.state_roots_at(i),
            List::HistoricalRoots => ours.historical_roots_at(i) == theirs.historical_roots_at(i),
            List::Eth1DataVotes => ours.eth1_data_votes_at(i) == theirs.eth1_data_votes_at(i),
            List::Validators => {
                let ours = ours.validators_at(i);
                is_same_validator(ours, theirs.validators_at(i))
            }
            List::Balances => ours.balances_at(i) == theirs.balances_at(i),
            List::RandaoMixes => ours.randao_mixes_at(i) == theirs.randao_mixes_at(i),
            List::Slashings => ours.slashings_at(i) == theirs.slashings_at(i),
            List::PreviousEpochAttestations => {
                let ours = ours.previous_epoch_attestations_at(i);
                is_same_vote(ours, theirs.previous_epoch_attestations_at(i))
            }
            List::CurrentEpochAttestations => {
                let ours = ours.current_epoch_attestations_at(i);
                is_same_vote(ours, theirs.current_epoch_attestations_at(i))
            }
        }
    }
}

/// Whether two validators are the same, or there is none of either.
fn is_same_validator(ours: Option<Entry<'_>>, theirs: Option<Entry<'_>>) -> bool {
    match (ours, theirs) {
        (Some(one), Some(other)) => one.validator() == other.validator(),
        (None, None) => true,
        _ => false,
    }
}

/// Whether two pending attestations are the same, or there is none of either.
fn is_same_vote(ours: Option<&PendingAttestation>, theirs: Option<&PendingAttestation>) -> bool {
    match (ours, theirs) {
        (Some(one), Some(other)) => one.equals(other),
        (None, None) => true,
        _ => false,
    }
}

/// The first place of our list where the two differ.
fn first_difference(ours: &State, theirs: &State, list: List) -> Option<u64> {
    for i in 0..list.len(ours) {
        if !list.is_same_at(ours, theirs, i) {
            return Some(i);
        }
    }
    None
}

/// Notes where two balances differ.
fn compare_balances(
    place: &str,
    ours: Option<u64>,
    theirs: Option<u64>,
    difference: &mut Difference,
) -> Result<()> {
    match (ours, theirs) {
        (Some(one), Some(other)) => difference.number(place, "", one, other),
        _ => Ok(()),
    }
}

/// Notes where the roots of two items differ. A root is its own.
fn compare_roots<T: Leaf>(
    place: &str,
    ours: Option<&T>,
    theirs: Option<&T>,
    difference: &mut Difference,
) -> Result<()> {
    match (ours, theirs) {
        (Some(one), Some(other)) => difference.bytes(place, "", &one.root(), &other.root()),
        _ => Ok(()),
    }
}

/// Notes how two items of a list of the chain's past differ.
fn compare_past(
    ours: &State,
    theirs: &State,
    list: List,
    i: u64,
    place: &str,
    difference: &mut Difference,
) -> Result<()> {
    match list {
        List::BlockRoots => compare_roots(
            place,
            ours.block_roots_at(i),
            theirs.block_roots_at(i),
            difference,
        ),
        List::StateRoots => compare_roots(
            place,
            ours.state_roots_at(i),
            theirs.state_roots_at(i),
            difference,
        ),
        List::HistoricalRoots => compare_roots(
            place,
            ours.historical_roots_at(i),
            theirs.historical_roots_at(i),
            difference,
        ),
        List::RandaoMixes => compare_roots(
            place,
            ours.randao_mixes_at(i),
            theirs.randao_mixes_at(i),
            difference,
        ),
        List::PreviousEpochAttestations => {
            compare_roots(
                place,
                ours.previous_epoch_attestations_at(i),
                theirs.previous_epoch_attestations_at(i),
                difference,
            )
        }
        List::CurrentEpochAttestations => {
            compare_roots(
                place,
                ours.current_epoch_attestations_at(i),
                theirs.current_epoch_attestations_at(i),
                difference,
            )
        }
        _ => Ok(()),
    }
}

/// Notes how two items of a list differ.
fn compare_items(
    ours: &State,
    theirs: &State,
    list: List,
    i: u64,
    place: &str,
    difference: &mut Difference,
) -> Result<()> {
    match list {
        List::Eth1DataVotes => compare_votes(
            place,
            ours.eth1_data_votes_at(i),
            theirs.eth1_data_votes_at(i),
            difference,
        ),
        List::Validators => compare_validators(
            place,
            ours.validators_at(i),
            theirs.validators_at(i),
            difference,
        ),
        List::Balances => compare_balances(
            place,
            ours.balances_at(i),
            theirs.balances_at(i),
            difference,
        ),
        List::Slashings => compare_balances(
            place,
            ours.slashings_at(i),
            theirs.slashings_at(i),
            difference,
        ),
        _ => compare_past(ours, theirs, list, i, place, difference),
    }
}

/// Notes where two lists differ: in length, or at the first place where they do.
pub(crate) fn compare_lists(
    ours: &State,
    theirs: &State,
    list: List,
    difference: &mut Difference,
) -> Result<()> {
    let name = list.name();
    difference.lengths(name, "", list.len(ours), list.len(theirs))?;
    match first_difference(ours, theirs, list) {
        Some(i) => {
            let place = format!(in difference.alloc; "{name}[{i}]")?;
            compare_items(ours, theirs, list, i, place.as_str(), difference)
        }
        None => Ok(()),
    }
}
