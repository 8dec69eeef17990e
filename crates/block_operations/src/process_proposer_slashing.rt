//! The slashing of a proposer of two blocks (beacon-chain.md, "Proposer slashings").

ghost use Rattle.std.specs.Prelude.{not};
ghost use Rattle.bc_words.specs.Outcome.{Changes, GivesExactly};
ghost use Rattle.bc_words.specs.declared.refusal.Refusal.TheVariants.{PsSame};
ghost use Rattle.spec_blocks.specs.Checks.{check};
ghost use Rattle.spec_blocks.specs.ProcessProposerSlashing.{same_header, process_proposer_slashing};

use crate::is_slashable_validator::is_slashable_validator;
use crate::slash_validator::slash;
use balance_totals::{current_epoch, validator_at};
use bc_preset::Config;
use bc_words::{Refusal, Stop};
use beacon_state::State;
use beacon_types::{BeaconBlockHeader, ProposerSlashing};

/// Refused where the two headers are equal.
fn check_differ(header_1: &BeaconBlockHeader, header_2: &BeaconBlockHeader) -> Result<(), Stop>
    ensures { GivesExactly result (check (not (same_header header_1.now header_2.now)) PsSame) }
{
    if header_1 == header_2 {
        return Err(Stop::Refused(Refusal::PsSame));
    }
    Ok(())
}

/// Slashes a validator that proposed two different blocks in one slot, for the block's proposer. The signatures aren't
/// checked.
///
/// Refused, in this order: `PsSlots`, `PsProposers`, `PsSame`, `IndexRange`, `NotSlashable`, and `Overflow` where a sum
/// doesn't fit. After a stop the state is as before.
#[tactic(auto, unfolding(spec_blocks::specs::ProcessProposerSlashing::process_proposer_slashing))]
pub fn process_proposer_slashing(
    state: &mut State,
    slashing: &ProposerSlashing,
    proposer: u64,
    config: &Config,
) -> Result<(), Stop>
    ensures { Changes result state.old state.new (process_proposer_slashing state.old slashing.now proposer config.now) }
{
    let header_1 = &slashing.signed_header_1.message;
    let header_2 = &slashing.signed_header_2.message;
    if header_1.slot != header_2.slot {
        return Err(Stop::Refused(Refusal::PsSlots));
    }
    if header_1.proposer_index != header_2.proposer_index {
        return Err(Stop::Refused(Refusal::PsProposers));
    }
    check_differ(header_1, header_2)?;
    let index = header_1.proposer_index;
    let validator = validator_at(state, index)?;
    if !is_slashable_validator(&validator, current_epoch(state)) {
        return Err(Stop::Refused(Refusal::NotSlashable));
    }
    slash(state, index, proposer, config)
}
