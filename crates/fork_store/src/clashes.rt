//! Whether and how the roots of a block that would be accepted are no names for it alone. The block comes from an event, the
//! one that it is compared with is the kept block of its root.

ghost use Rattle.std.specs.Prelude.{◌≡◌, option_map, ◌≤◌, ◌<◌, ◌^◌, length};
ghost use Rattle.std.specs.Bool.{Decides};
ghost use Rattle.spec_fork_choice.specs.SameBlock.{same_block as same_blocks};
ghost use Rattle.spec_fork_choice.specs.Clash.{clash_with, clashes, is_another as another, place_of, clash_of, clash_among};
ghost use Rattle.fork_store.specs.Keepers.{kept_blocks};

use crate::chain_stepper::ChainStepper;
use crate::kept_blocks::{KeptBlocks, block_of};
use bc_words::ClashKind;
use beacon_types::BeaconBlock;
use hash_tree::Root;
use state_keeper::Keeper;

/// Whether the roots of a block clash: one of them is zero, or the kept block of its root, if there is one, is another
/// block. Signatures don't count. It takes no memory.
#[tactic(auto, unfolding(spec_fork_choice::specs::Clash::clashes))]
pub fn clash(root: Root, state_root: Root, kept: Option<&BeaconBlock>, new: &BeaconBlock) -> bool
    ensures { result ≡ clashes root state_root (option_map (λ b. b.now) kept.entry) new.now }
{
    clash_with(kept, 0, root, state_root, new).is_some()
}

/// How a block with these roots clashes with the kept block of its root, whose place this is, if it does: its root is zero, or else
/// its state root is, or else the kept block is another one.
#[tactic(auto, unfolding(spec_fork_choice::specs::Clash::clash_with))]
pub fn clash_with(
    kept: Option<&BeaconBlock>,
    place: u32,
    root: Root,
    state_root: Root,
    new: &BeaconBlock,
) -> Option<ClashKind>
    ensures { result ≡ clash_with (option_map (λ b. b.now) kept.entry) place root state_root new.now }
{
    if root == [0; 32] {
        return Some(ClashKind::ZeroBlock);
    }
    if state_root == [0; 32] {
        return Some(ClashKind::ZeroState);
    }
    if is_another(kept, new) {
        return Some(ClashKind::Kept(place));
    }
    None
}

/// Whether a kept block is there and is another one.
#[tactic(auto, unfolding(spec_fork_choice::specs::Clash::is_another))]
fn is_another(kept: Option<&BeaconBlock>, new: &BeaconBlock) -> bool
    ensures { result ≡ another (option_map (λ b. b.now) kept.entry) new.now }
{
    match kept {
        Some(other) => !same_block(other, new),
        None => false,
    }
}

/// Whether two blocks are the same.
#[tactic(auto, using(spec_fork_choice::proofs::SameBlock::block_decides))]
fn same_block(a: &BeaconBlock, b: &BeaconBlock) -> bool
    ensures { result ≡ same_blocks a.now b.now }
{
    a.equals(b)
}

/// The comparison in those definitions is equality.
#[tactic(auto, using(spec_fork_choice::proofs::SameBlock::block_decides))]
pub fn same_block_is_equality()
    ensures { (a b : BeaconBlock) → Decides (same_blocks a b) (a ≡ b) }
{}

/// The place of a root's block among the kept ones, and their number where the root isn't kept.
#[tactic(auto, using(crate::proofs::Finds::placing))]
fn place_of(blocks: &KeptBlocks, root: Root) -> usize
    ensures place { result ≡ place_of blocks.now root }
    ensures most { result ≤ length blocks.now }
{
    match blocks.node_number(root) {
        Some(number) => number,
        None => blocks.len(),
    }
}

/// The place of the kept block that has a block's root and another content. None exactly where there is none.
#[tactic(auto, unfolding(spec_fork_choice::specs::Clash::clash_among))]
pub fn clash_among(
    blocks: &KeptBlocks,
    keeper: &Keeper<ChainStepper>,
    root: Root,
    block: &BeaconBlock,
) -> Option<u32>
    requires few { length blocks.now < 2 ^ 32 }
    requires keeper { kept_blocks keeper.now.blocks ≡ blocks.now }
    ensures { result ≡ clash_among blocks.now root block.now }
{
    let kept = block_of(blocks, keeper, root);
    let place = place_of(blocks, root);
    if is_another(kept, block) {
        Some(place as u32)
    } else {
        None
    }
}

/// How a block with this root clashes with the kept ones, if it does.
#[tactic(auto, using(crate::proofs::Keepers::clashing))]
pub fn clash_of(
    blocks: &KeptBlocks,
    keeper: &Keeper<ChainStepper>,
    root: Root,
    block: &BeaconBlock,
) -> Option<ClashKind>
    requires few { length blocks.now < 2 ^ 32 }
    requires keeper { kept_blocks keeper.now.blocks ≡ blocks.now }
    ensures { result ≡ clash_of blocks.now root block.now.state_root block.now }
{
    let kept = block_of(blocks, keeper, root);
    let place = place_of(blocks, root);
    clash_with(kept, place as u32, root, block.state_root, block)
}
