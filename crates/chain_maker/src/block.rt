//! The block of a slot, and the state behind it.

ghost use Rattle.std.specs.Prelude.{◌≡◌, ◌++◌, IfOk};
ghost use Rattle.bc_words.specs.Outcome.{Gives};
ghost use Rattle.spec_drill.specs.MakeBlock.{body_of, unrooted, make_block};

use crate::genesis::ZERO_ETH1;
use crate::plan::{Plan, slot_digest};
use bc_words::{NoMemory, Stop};
use beacon_state::State;
use beacon_types::{
    Attestations, BeaconBlock, BeaconBlockBody, SignedBeaconBlock, default_block_body,
};
use hash_tree::Root;
use std::alloc::Global;
use std::marker::Model;
use transition::get_beacon_proposer_index::get_beacon_proposer_index;
use transition::process_block::process_block;

/// A block, signed by zeros, with the state behind it.
#[derive(Drop)]
pub struct MadeBlock {
    /// The block.
    pub block: SignedBeaconBlock,
    /// The state.
    pub state: State,
}

impl Model for MadeBlock {
    ghost use Rattle.spec_drill.specs.MakeBlock.{MadeBlock};

    ghost Value = { MadeBlock };

    ghost view = { λ made. record { block = made.block; state = made.state } };

    ghost invariant = { λ made. Unit {0} };
}

/// A root three times, one after another.
fn three_times(alloc: Global, root: &Root) -> Result<[u8; 96], NoMemory>
    ensures { IfOk result (λ bytes. bytes ≡ root.now ++ root.now ++ root.now) }
{
    let mut bytes = Vec::new(alloc);
    bytes.extend_from_slice(root)?;
    bytes.extend_from_slice(root)?;
    bytes.extend_from_slice(root)?;
    match <[u8; 96]>::try_from(bytes.as_slice()) {
        Ok(bytes) => Ok(bytes),
        Err(_other_length) => unreachable!(),
    }
}

/// The body of the block of the state's slot.
#[tactic(auto, unfolding(spec_drill::specs::MakeBlock::body_of))]
fn body_of(
    alloc: Global,
    plan: &Plan,
    state: &State,
    votes: &Attestations,
) -> Result<BeaconBlockBody, NoMemory>
    ensures { IfOk result (λ body. body ≡ body_of plan.now state.now votes.now) }
{
    let mut body = default_block_body(alloc);
    body.randao_reveal = three_times(alloc, &slot_digest(plan.number, state.slot()))?;
    body.eth1_data = ZERO_ETH1;
    body.graffiti = plan.graffiti(state.slot());
    body.attestations = votes.copy(alloc)?;
    Ok(body)
}

/// The block of the state's slot on the block with this root, as yet without the root of the state behind it.
#[tactic(auto, unfolding(spec_drill::specs::MakeBlock::unrooted))]
fn unrooted(
    alloc: Global,
    plan: &Plan,
    state: &State,
    parent_root: &Root,
    votes: &Attestations,
    proposer: u64,
) -> Result<BeaconBlock, NoMemory>
    ensures { IfOk result (λ block. block ≡ unrooted plan.now state.now parent_root.now votes.now proposer) }
{
    Ok(BeaconBlock {
        slot: state.slot(),
        proposer_index: proposer,
        parent_root: *parent_root,
        state_root: [0; 32],
        body: body_of(alloc, plan, state, votes)?,
    })
}

/// The block of the state's slot on the block with this root, with these attestations, and the state behind it. The given
/// state is untouched.
///
/// Stopped as the proposer's lookup is, and as the block is.
#[tactic(auto, unfolding(spec_drill::specs::MakeBlock::make_block, spec_drill::specs::MakeBlock::unrooted))]
pub fn make_block(
    alloc: Global,
    plan: &Plan,
    at: &State,
    parent_root: &Root,
    votes: &Attestations,
) -> Result<MadeBlock, Stop>
    ensures { Gives result (make_block plan.now at.now parent_root.now votes.now) }
{
    let proposer = get_beacon_proposer_index(alloc, at)?;
    let mut message = unrooted(alloc, plan, at, parent_root, votes, proposer)?;
    let mut state = at.share()?;
    process_block(alloc, &mut state, &message, &plan.config)?;
    message.state_root = state.keep_root();
    Ok(MadeBlock {
        block: SignedBeaconBlock {
            message,
            signature: [0; 96],
        },
        state,
    })
}
