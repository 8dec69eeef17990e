//! Justification and finalisation of a state (beacon-chain.md, "process_justification_and_finalization").

ghost use Rattle.std.specs.Prelude.{◌≡◌};
ghost use Rattle.bc_words.specs.Outcome.{Changes, Gives};
ghost use Rattle.spec_state.specs.Accessors.{get_current_epoch, get_previous_epoch, get_block_root};
ghost use Rattle.spec_state.specs.Soundness.{IsSound};
ghost use Rattle.balance_totals.specs.inside.Stakes.{stakes_of};
ghost use Rattle.epoch_rewards.specs.declared.matching.Vote.TheVariants as votes;
ghost use Rattle.epoch_rewards.specs.inside.Statuses.{statuses_of, flags_of};
ghost use Rattle.spec_epochs.specs.Weigh.{weigh};
ghost use Rattle.spec_epochs.specs.WeighJustificationAndFinalization.{justification_of, with_justification, weigh_justification_and_finalization};
ghost use Rattle.spec_epochs.specs.ProcessJustificationAndFinalization.{process_justification_and_finalization};

use crate::weigh_justification_and_finalization::weigh;
use balance_totals::{Stake, block_root, current_epoch, previous_epoch, total_active};
use bc_words::Stop;
use beacon_state::State;
use epoch_rewards::{Status, Vote, flag_balance, vote_balance};
use spec_epochs::Justification;

/// The bits and checkpoints of a state.
#[tactic(auto, unfolding(spec_epochs::specs::WeighJustificationAndFinalization::justification_of))]
fn justification_of(state: &State) -> Justification
    ensures { result ≡ justification_of state.now }
{
    Justification {
        bits: state.justification_bits(),
        previous: state.previous_justified_checkpoint(),
        current: state.current_justified_checkpoint(),
        finalized: state.finalized_checkpoint(),
    }
}

/// Writes the bits and checkpoints.
#[tactic(auto, unfolding(spec_epochs::specs::WeighJustificationAndFinalization::with_justification))]
fn set_justification(state: &mut State, j: Justification)
    ensures { state.new ≡ with_justification state.old j }
{
    state.set_justification_bits(j.bits);
    state.set_previous_justified_checkpoint(j.previous);
    state.set_current_justified_checkpoint(j.current);
    state.set_finalized_checkpoint(j.finalized);
}

/// What becomes of the bits and checkpoints, by the total and the balances of the attesters of the two epochs' blocks.
#[tactic(auto, using(epoch_rewards::proofs::Sound::previous_is_earlier, crate::proofs::Sound::previous_early, crate::proofs::Sound::current_early))]
fn weigh_of(state: &State, total: u64, previous: u64, current: u64) -> Result<Justification, Stop>
    requires { IsSound state.now }
    ensures { let epoch = get_current_epoch state.now in let previous_root = get_block_root state.now (get_previous_epoch state.now) in
        Gives result (weigh (justification_of state.now) epoch previous_root (get_block_root state.now epoch) total previous current) }
{
    let epoch = current_epoch(state);
    let previous_root = block_root(state, previous_epoch(state));
    let current_root = block_root(state, epoch);
    let j = justification_of(state);
    let weighed = weigh(
        j,
        epoch,
        previous_root,
        current_root,
        total,
        previous,
        current,
    )?;
    Ok(weighed)
}

/// Justifies and makes final what the votes of the previous and of the current epoch are enough for (beacon-chain.md,
/// `process_justification_and_finalization`). Nothing happens in the first two epochs. The stakes are the state's, the statuses
/// those of its previous epoch, and the flags say who has the target right in its current epoch.
///
/// Refused as an overflow exactly where a sum or product of balances does not fit; the state is then as before.
#[tactic(auto, unfolding(spec_epochs::specs::ProcessJustificationAndFinalization::process_justification_and_finalization, spec_epochs::specs::WeighJustificationAndFinalization::weigh_justification_and_finalization), using(crate::proofs::Targets::targets_are, crate::proofs::Targets::flags_are))]
pub fn process_justification(
    state: &mut State,
    stakes: &[Stake],
    previous: &[Status],
    current: &[bool],
) -> Result<(), Stop>
    requires sound { IsSound state.old }
    requires stakes { stakes.now ≡ stakes_of state.old }
    requires previous { previous.now ≡ statuses_of state.old (get_previous_epoch state.old) }
    requires current { current.now ≡ flags_of votes.Target (statuses_of state.old (get_current_epoch state.old)) }
    ensures { Changes result state.old state.new (process_justification_and_finalization state.old) }
{
    let epoch = current_epoch(state);
    if epoch <= 1 {
        return Ok(());
    }
    let total = total_active(state, epoch)?;
    let before = vote_balance(state, stakes, previous, Vote::Target)?;
    let now = flag_balance(state, stakes, current)?;
    let weighed = weigh_of(state, total, before, now)?;
    set_justification(state, weighed);
    Ok(())
}
