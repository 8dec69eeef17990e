//! The header of a block (beacon-chain.md, "Block header").

ghost use Rattle.std.specs.Prelude.{◌≡◌};
ghost use Rattle.bc_words.specs.Outcome.{Changes};
ghost use Rattle.beacon_types.specs.Blocks.{block_body_codec};
ghost use Rattle.spec_blocks.specs.ProcessBlockHeader.{header_of, process_block_header};

use balance_totals::validator_at;
use bc_words::{Refusal, Stop};
use beacon_state::State;
use beacon_types::{BeaconBlock, BeaconBlockHeader};
use hash_tree::{Leaf, Root};

/// The header of the block, whose body has this root. Its state root is zero until the next slot.
fn header_of(block: &BeaconBlock, body_root: Root) -> BeaconBlockHeader
    requires { body_root ≡ block_body_codec.hash_tree_root block.now.body }
    ensures { result ≡ header_of block.now }
{
    BeaconBlockHeader {
        slot: block.slot,
        proposer_index: block.proposer_index,
        parent_root: block.parent_root,
        state_root: [0; 32],
        body_root,
    }
}

/// Makes the block the latest one, where `proposer` is the slot's proposer (beacon-chain.md, `process_block_header`).
///
/// Refused, in this order: `WrongProposer` where the block's index is another, `ProposerSlashed`; for an index past the
/// registry too. After a stop the state is as before.
pub fn process_header(state: &mut State, block: &BeaconBlock, proposer: u64) -> Result<(), Stop>
    ensures { Changes result state.old state.new (process_block_header state.old block.now proposer) }
{
    process_rooted_header(state, block, block.body.root(), proposer)
}

/// The same, where the root of the block's body is known.
#[tactic(auto, unfolding(spec_blocks::specs::ProcessBlockHeader::process_block_header))]
pub fn process_rooted_header(
    state: &mut State,
    block: &BeaconBlock,
    body_root: Root,
    proposer: u64,
) -> Result<(), Stop>
    requires { body_root ≡ block_body_codec.hash_tree_root block.now.body }
    ensures { Changes result state.old state.new (process_block_header state.old block.now proposer) }
{
    if block.proposer_index != proposer {
        return Err(Stop::Refused(Refusal::WrongProposer));
    }
    let validator = validator_at(state, proposer)?;
    if validator.slashed {
        return Err(Stop::Refused(Refusal::ProposerSlashed));
    }
    state.set_latest_block_header(header_of(block, body_root));
    Ok(())
}
