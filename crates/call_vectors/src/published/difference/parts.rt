//! What a state is made of, field by field.

use super::Difference;
use anyhow::Result;
use beacon_state::Entry;
use beacon_types::{Checkpoint, Eth1Data};

/// Two checkpoints.
pub(crate) fn compare_checkpoints(
    name: &str,
    ours: &Checkpoint,
    theirs: &Checkpoint,
    difference: &mut Difference,
) -> Result<()> {
    difference.number(name, ".epoch", ours.epoch, theirs.epoch)?;
    difference.bytes(name, ".root", &ours.root, &theirs.root)
}

/// What is known of the deposit contract.
pub(crate) fn compare_eth1_data(
    name: &str,
    ours: &Eth1Data,
    theirs: &Eth1Data,
    difference: &mut Difference,
) -> Result<()> {
    difference.bytes(
        name,
        ".deposit_root",
        &ours.deposit_root,
        &theirs.deposit_root,
    )?;
    difference.number(
        name,
        ".deposit_count",
        ours.deposit_count,
        theirs.deposit_count,
    )?;
    difference.bytes(name, ".block_hash", &ours.block_hash, &theirs.block_hash)
}

/// Two votes for the deposit contract, where there are two.
pub(crate) fn compare_votes(
    place: &str,
    ours: Option<&Eth1Data>,
    theirs: Option<&Eth1Data>,
    difference: &mut Difference,
) -> Result<()> {
    match (ours, theirs) {
        (Some(one), Some(other)) => compare_eth1_data(place, one, other, difference),
        _ => Ok(()),
    }
}

/// What a validator is and has.
fn compare_holdings(
    place: &str,
    ours: &Entry,
    theirs: &Entry,
    difference: &mut Difference,
) -> Result<()> {
    difference.bytes(place, ".pubkey", ours.pubkey(), theirs.pubkey())?;
    difference.bytes(
        place,
        ".withdrawal_credentials",
        &ours.withdrawal_credentials(),
        &theirs.withdrawal_credentials(),
    )?;
    difference.number(
        place,
        ".effective_balance",
        ours.effective_balance(),
        theirs.effective_balance(),
    )?;
    difference.truth(place, ".slashed", ours.slashed(), theirs.slashed())
}

/// When a validator comes and goes.
fn compare_times(
    place: &str,
    ours: &Entry,
    theirs: &Entry,
    difference: &mut Difference,
) -> Result<()> {
    difference.number(
        place,
        ".activation_eligibility_epoch",
        ours.activation_eligibility_epoch(),
        theirs.activation_eligibility_epoch(),
    )?;
    difference.number(
        place,
        ".activation_epoch",
        ours.activation_epoch(),
        theirs.activation_epoch(),
    )?;
    difference.number(place, ".exit_epoch", ours.exit_epoch(), theirs.exit_epoch())?;
    difference.number(
        place,
        ".withdrawable_epoch",
        ours.withdrawable_epoch(),
        theirs.withdrawable_epoch(),
    )
}

/// Two validators, where there are two.
pub(crate) fn compare_validators(
    place: &str,
    ours: Option<Entry<'_>>,
    theirs: Option<Entry<'_>>,
    difference: &mut Difference,
) -> Result<()> {
    match (ours, theirs) {
        (Some(one), Some(other)) => {
            compare_holdings(place, &one, &other, difference)?;
            compare_times(place, &one, &other, difference)
        }
        _ => Ok(()),
    }
}
