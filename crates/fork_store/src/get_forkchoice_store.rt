//! The store as it opens, at an anchor and at genesis (fork-choice.md, "get_forkchoice_store").
//!
//! A state and its block come from files, or a genesis state alone, whose block is made; both, the keeper, the fields and the array
//! of them make the store.

ghost use Rattle.spec_fork_choice.specs.Anchor.{anchor_fault, time_of_slot};
ghost use Rattle.spec_fork_choice.specs.GetForkchoiceStore.{genesis_block, get_forkchoice_store};
ghost use Rattle.spec_fork_choice.specs.OnEvent.{first_clash, open_at, open_store};
ghost use Rattle.spec_state.specs.Genesis.{genesis_fault};
ghost use Rattle.std.specs.Prelude.{◌≡◌, ◌≤◌, ◌<◌, ◌^◌, ◌∷◌, [], None, IfOk};
ghost use Rattle.fork_store.specs.inside.Accepted.{kept_of};
ghost use Rattle.fork_store.specs.Keepers.{kept_blocks, IsKeeperOf};
ghost use Rattle.fork_store.specs.Stores.{IsRootOf};
ghost use Rattle.fork_store.specs.inside.Openings.{array_as_opened};
ghost use Rattle.fork_store.specs.inside.Wholes.{AreParts};
ghost use Rattle.bc_words.specs.Events.{StoreGivesBy};

use crate::chain_stepper::ChainStepper;
use crate::checkpoint_states::CheckpointStates;
use crate::clashes::clash_with;
use crate::kept_blocks::KeptBlocks;
use crate::ready_balances::balances_of;
use crate::settle::facts_of;
use crate::store::Store;
use crate::store_fields::StoreFields;
use balance_totals::{current_epoch, keep_active, keep_committees, previous_epoch};
use bc_preset::Config;
use bc_words::{ClashKind, NoMemory, StoreStop};
use beacon_state::State;
use beacon_types::{BeaconBlock, Checkpoint, SignedBeaconBlock, default_block_body};
use block_array::{BlockArray, Facts};
use hash_tree::{Leaf, Root};
use state_keeper::Keeper;
use std::alloc::Global;

/// The block of a genesis state (beacon-chain.md, "Genesis block").
#[tactic(auto, unfolding(spec_fork_choice::specs::GetForkchoiceStore::genesis_block))]
pub fn genesis_block(alloc: Global, genesis: &State) -> BeaconBlock
    ensures { result ≡ genesis_block genesis.now }
{
    BeaconBlock {
        slot: 0,
        proposer_index: 0,
        parent_root: [0; 32],
        state_root: genesis.root(),
        body: default_block_body(alloc),
    }
}

/// How the first kept block clashes, if it does.
#[tactic(auto, using(crate::proofs::Keepers::first_clashing))]
pub fn first_clash(block: &BeaconBlock, root: Root) -> Option<ClashKind>
    requires { IsRootOf root block.now }
    ensures { result ≡ first_clash block.now }
{
    clash_with(None, 0, root, block.state_root, block)
}

/// A share of the first block's state that keeps the active validators and the committees of its epoch: the state of the first
/// checkpoint and all states behind the block have them of it.
fn first_state(alloc: Global, state: &State) -> Result<State, NoMemory>
    ensures { IfOk result (λ first. first ≡ state.now) }
{
    let mut first = state.share()?;
    keep_active(alloc, &mut first, previous_epoch(state))?;
    keep_committees(alloc, &mut first, current_epoch(state))?;
    Ok(first)
}

/// The keeper whose one block is this. The store opens at it unsigned, so that its signature is all zero.
pub fn first_keeper(
    alloc: Global,
    config: &Config,
    state: &State,
    block: &BeaconBlock,
    root: Root,
) -> Result<Keeper<ChainStepper>, NoMemory>
    requires { IsRootOf root block.now }
    ensures stepper { IfOk result (λ keeper. keeper.stepper ≡ config.now) }
    ensures blocks { IfOk result (λ keeper. kept_blocks keeper.blocks ≡ kept_of root block.now state.now ∷ []) }
{
    let state = first_state(alloc, state)?;
    let message = block.copy(alloc)?;
    let signed = SignedBeaconBlock {
        message,
        signature: [0; 96],
    };
    let keeper = Keeper::new(alloc, ChainStepper::new(config), signed, state)?;
    Ok(keeper)
}

/// When the slot of an anchor begins, in seconds.
#[tactic(auto, using(crate::proofs::Anchors::timing), unfolding(spec_fork_choice::specs::Anchor::time_of_slot))]
fn opening_time(config: &Config, state: &State, block: &BeaconBlock) -> u64
    requires { anchor_fault config.now state.now block.now ≡ None }
    ensures exact { result ≡ time_of_slot config.now state.now }
    ensures later { state.now.genesis_time ≤ result }
{
    let _block = block;
    let seconds = config.seconds_per_slot() * state.slot();
    state.genesis_time() + seconds
}

/// The fields of the store whose one block is this, which is the keeper's.
#[tactic(auto, using(crate::proofs::Keepers::opening), unfolding(spec_fork_choice::specs::GetForkchoiceStore::get_forkchoice_store, crate::specs::Stores::IsRootOf))]
pub fn forkchoice_fields(
    alloc: Global,
    config: &Config,
    state: &State,
    block: &BeaconBlock,
    keeper: &Keeper<ChainStepper>,
    root: Root,
) -> Result<StoreFields, NoMemory>
    requires anchor { anchor_fault config.now state.now block.now ≡ None }
    requires preset { state.now.preset ≡ config.now.preset }
    requires keeper { kept_blocks keeper.now.blocks ≡ kept_of root block.now state.now ∷ [] }
    requires root { IsRootOf root block.now }
    requires none { first_clash block.now ≡ None }
    requires low { block.now.slot < 2 ^ 64 }
    ensures { IfOk result (λ store. store ≡ get_forkchoice_store config.now state.now block.now) }
{
    let time = opening_time(config, state, block);
    let blocks = KeptBlocks::of_first(alloc, keeper, root)?;
    let checkpoint = Checkpoint {
        epoch: current_epoch(state),
        root,
    };
    let states = CheckpointStates::new(alloc);
    let genesis_time = state.genesis_time();
    Ok(StoreFields::as_opened(*config, time, genesis_time, checkpoint, blocks, states))
}

/// The array whose one node is that of the first block, with the store's checkpoints and the balances of the justified one. The keeper is
/// as before.
fn first_array(
    alloc: Global,
    store: &StoreFields,
    keeper: &mut Keeper<ChainStepper>,
    slot: u64,
    root: Root,
    facts: Facts,
) -> Result<BlockArray, NoMemory>
    requires { IsKeeperOf store.now keeper.old }
    ensures array { IfOk result (λ array. array ≡ array_as_opened store.now slot root facts) }
    ensures same { keeper.new ≡ keeper.old }
{
    let config = store.config();
    let preset = config.preset();
    preset.bounds();
    let slots_per_epoch = preset.slots_per_epoch;
    let percent = config.proposer_score_boost();
    let balances = balances_of(alloc, store, keeper, store.justified())?;
    let mut array = BlockArray::new(alloc, slots_per_epoch, percent, slot, root, facts)?;
    balances.give(&mut array);
    array.set_checkpoints(0, store.justified(), store.finalized());
    Ok(array)
}

/// The fields and the array of the store as it opens (fork-choice.md, `get_forkchoice_store`), whose one block is the keeper's. No
/// balances are held ready.
///
/// Its condition is a state of the configuration's preset and a block with which nothing is wrong, and whose roots don't clash. `root`
/// is that of the block. It stops for want of memory alone.
#[tactic(auto, using(crate::proofs::Opened::opening))]
pub fn first_parts(
    alloc: Global,
    config: &Config,
    state: &State,
    block: &BeaconBlock,
    keeper: &mut Keeper<ChainStepper>,
    root: Root,
) -> Result<(StoreFields, BlockArray), NoMemory>
    requires anchor { anchor_fault config.now state.now block.now ≡ None }
    requires preset { state.now.preset ≡ config.now.preset }
    requires stepper { keeper.old.stepper ≡ config.now }
    requires keeper { kept_blocks keeper.old.blocks ≡ kept_of root block.now state.now ∷ [] }
    requires root { IsRootOf root block.now }
    requires none { first_clash block.now ≡ None }
    requires low { block.now.slot < 2 ^ 64 }
    ensures plain { IfOk result (λ parts. parts.0 ≡ get_forkchoice_store config.now state.now block.now) }
    ensures parts { IfOk result (λ parts. AreParts parts.0 parts.1 keeper.new None) }
{
    let _roots = state.block_roots_len();
    let facts = facts_of(state);
    let fields = forkchoice_fields(alloc, config, state, block, keeper, root)?;
    let array = first_array(alloc, &fields, keeper, block.slot, root, facts)?;
    Ok((fields, array))
}

/// The store whose one block is this.
fn forkchoice_store(
    alloc: Global,
    config: &Config,
    state: &State,
    block: &BeaconBlock,
    root: Root,
) -> Result<Store, NoMemory>
    requires anchor { anchor_fault config.now state.now block.now ≡ None }
    requires preset { state.now.preset ≡ config.now.preset }
    requires root { IsRootOf root block.now }
    requires none { first_clash block.now ≡ None }
    requires low { block.now.slot < 2 ^ 64 }
    ensures { IfOk result (λ store. store.plain ≡ get_forkchoice_store config.now state.now block.now) }
{
    let mut keeper = first_keeper(alloc, config, state, block, root)?;
    let (fields, array) = first_parts(alloc, config, state, block, &mut keeper, root)?;
    Ok(Store {
        fields,
        array,
        keeper,
        ready: None,
    })
}

/// The store at such an anchor. It clashes where the block's root or its state root is zero.
#[tactic(auto, unfolding(spec_fork_choice::specs::OnEvent::open_at, spec_fork_choice::specs::OnEvent::open_unless, crate::specs::Stores::IsRootOf))]
fn open_at(
    alloc: Global,
    config: &Config,
    state: &State,
    block: &BeaconBlock,
) -> Result<Store, StoreStop>
    requires anchor { anchor_fault config.now state.now block.now ≡ None }
    requires preset { state.now.preset ≡ config.now.preset }
    ensures { StoreGivesBy (λ store. store.plain) result (open_at config.now state.now block.now) }
{
    let _slot = block.slot;
    let root = block.root();
    match first_clash(block, root) {
        Some(kind) => Err(StoreStop::Clash(kind)),
        None => Ok(forkchoice_store(alloc, config, state, block, root)?),
    }
}

/// The store at genesis, which with its block is such an anchor.
#[tactic(auto, using(crate::proofs::Anchors::at_genesis))]
fn open_store(alloc: Global, config: &Config, genesis: &State) -> Result<Store, StoreStop>
    requires genesis { genesis_fault genesis.now ≡ None }
    requires preset { genesis.now.preset ≡ config.now.preset }
    ensures { StoreGivesBy (λ store. store.plain) result (open_store config.now genesis.now) }
{
    let _time = genesis.genesis_time();
    let block = genesis_block(alloc, genesis);
    open_at(alloc, config, genesis, &block)
}

impl Store {
    /// The store at an anchor (fork-choice.md, `get_forkchoice_store`): a state of the configuration's preset and a block with which
    /// `anchor_check` finds nothing wrong. It clashes where the block's root or its state root is zero.
    pub fn new_at(
        alloc: Global,
        config: &Config,
        state: State,
        block: BeaconBlock,
    ) -> Result<Store, StoreStop>
        requires anchor { anchor_fault config.now state block ≡ None }
        requires preset { state.preset ≡ config.now.preset }
        ensures { StoreGivesBy (λ store. store.plain) result (open_at config.now state block) }
    {
        open_at(alloc, config, &state, &block)
    }

    /// The store at genesis (fork-choice.md, `get_forkchoice_store`), of a genesis state that the genesis check accepts and
    /// whose preset is the configuration's. It clashes where the genesis block's root or the state's is zero.
    pub fn new(alloc: Global, config: &Config, genesis: State) -> Result<Store, StoreStop>
        requires genesis { genesis_fault genesis ≡ None }
        requires preset { genesis.preset ≡ config.now.preset }
        ensures { StoreGivesBy (λ store. store.plain) result (open_store config.now genesis) }
    {
        open_store(alloc, config, &genesis)
    }
}
