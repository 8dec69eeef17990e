//! Which votes of an attestation are right (beacon-chain.md, "get_matching_target_attestations" and
//! "get_matching_head_attestations").

ghost use Rattle.std.specs.Prelude.{◌≡◌};
ghost use Rattle.epoch_rewards.specs.inside.Votes.{counts_for};

use balance_totals::block_root_at_slot;
use beacon_state::State;
use beacon_types::PendingAttestation;
use hash_tree::Root;

/// What an attestation votes for, each with what stands before it.
#[derive(Clone, Copy)]
pub enum Vote {
    /// The source, which a block checked.
    Source,
    /// The target too.
    Target,
    /// The head too.
    Head,
}

/// Whether an attestation has this vote right, where the root is that of the epoch's first block.
#[tactic(auto, unfolding(crate::specs::inside::Votes::counts_for))]
pub(crate) fn counts_for(
    state: &State,
    vote: Vote,
    root: &Root,
    attestation: &PendingAttestation,
) -> bool
    ensures { result ≡ counts_for state.now vote root.now attestation.now }
{
    let content = &attestation.content;
    match vote {
        Vote::Source => true,
        Vote::Target => content.target.root == *root,
        Vote::Head => {
            content.target.root == *root
                && content.beacon_block_root == block_root_at_slot(state, content.slot)
        }
    }
}
