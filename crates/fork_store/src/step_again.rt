//! A kept block that comes again (fork-choice.md, "on_block"): its step isn't made once more.

ghost use Rattle.std.specs.Prelude.{◌≡◌, ◌<◌, ◌^◌, Some, length, IfOk, IfSome};
ghost use Rattle.fork_store.specs.Keepers.{kept_blocks, IsKeeperOf};
ghost use Rattle.fork_store.specs.KeptStates.{IsStepOfKept};
ghost use Rattle.fork_store.specs.inside.Entered.{IsKeptAgain};

use crate::chain_stepper::ChainStepper;
use crate::kept_blocks::{KeptBlocks, node_number};
use crate::kept_state::kept_state;
use crate::made_step::MadeStep;
use crate::store_fields::StoreFields;
use bc_words::NoMemory;
use beacon_types::{BeaconBlock, SignedBeaconBlock};
use state_keeper::Keeper;

/// How many of the blocks that were kept behind a block's parent are looked at.
const LOOKED_AT: usize = 64;

/// The number of a kept block that is this one, among those that were kept next behind the parent of that number. The blocks are
/// compared, and no root is made.
fn number_again(
    blocks: &KeptBlocks,
    keeper: &Keeper<ChainStepper>,
    parent: u32,
    block: &BeaconBlock,
) -> Option<u32>
    requires keeper { kept_blocks keeper.now.blocks ≡ blocks.now }
    requires few { length blocks.now < 2 ^ 32 }
    ensures { IfSome result (λ number. IsKeptAgain blocks.now number block.now) }
{
    let first = parent as usize + 1;
    let last = blocks.len().min(first + LOOKED_AT);
    for number in first..last {
        if keeper.block(number as u32).message.equals(block) {
            return Some(number as u32);
        }
    }
    None
}

/// The step of the kept block of a number, which comes again. The keeper is as before.
fn made_again(
    store: &StoreFields,
    keeper: &mut Keeper<ChainStepper>,
    number: u32,
    block: &SignedBeaconBlock,
) -> Result<MadeStep, NoMemory>
    requires keeper { IsKeeperOf store.now keeper.old }
    requires again { IsKeptAgain store.now.blocks number block.now.message }
    ensures made { IfOk result (λ step. IsStepOfKept store.now block.now.message step) }
    ensures same { keeper.new ≡ keeper.old }
{
    store.is_sound();
    keeper.steps_were_taken();
    let state = kept_state(store.blocks(), keeper, number)?;
    Ok(MadeStep::again(store, block, state))
}

/// The step of a block that is kept, where it is found among the blocks that were kept next behind its parent. None where it isn't
/// found there. The keeper is as before.
pub fn step_again(
    store: &StoreFields,
    keeper: &mut Keeper<ChainStepper>,
    block: &SignedBeaconBlock,
) -> Result<Option<MadeStep>, NoMemory>
    requires keeper { IsKeeperOf store.now keeper.old }
    ensures made { IfOk result (λ found. IfSome found (λ step. IsStepOfKept store.now block.now.message step)) }
    ensures same { keeper.new ≡ keeper.old }
{
    let Some(parent) = node_number(store.blocks(), block.message.parent_root) else {
        return Ok(None);
    };
    match number_again(store.blocks(), keeper, parent, &block.message) {
        Some(number) => Ok(Some(made_again(store, keeper, number, block)?)),
        None => Ok(None),
    }
}
