//! Blocks (fork-choice.md, "on_block").
//!
//! A block comes from an event; it is checked, its parent's state is taken through it, and it is kept. A timely one has the boost, and
//! the store's checkpoints follow its state's. What an accepted block leaves goes to the event's line.

ghost use Rattle.std.specs.Prelude.{◌≡◌, Some, ◌<◌, ◌-◌, ◌^◌, ◌++◌, ◌∷◌, [], true, false, length, IfErr, IfOk};
ghost use Rattle.bc_words.specs.Outcome.{GivesExactly, Becomes, Gives, Stops};
ghost use Rattle.fork_store.specs.inside.Accepted.{check_block, finalized_by, settled, kept_of};
ghost use Rattle.fork_store.specs.Arrays.{AreNodesOf, node_number, IsArrayOf};
ghost use Rattle.beacon_types.specs.Equality.{same_root};
ghost use Rattle.spec_state.specs.Genesis.{zero_root};
ghost use Rattle.spec_state.specs.Soundness.{IsSound};
ghost use Rattle.spec_fork_choice.specs.Store.{is_kept};
ghost use Rattle.fork_store.specs.inside.Wholes.{AreParts, AreReady, IsReady};
ghost use Rattle.fork_store.specs.inside.Chains.{IsLinked, IsChained};
ghost use Rattle.fork_store.specs.inside.Following.{may_move, may_be_left, AreGiven};
ghost use Rattle.fork_store.specs.Keepers.{IsKeeperOf};
ghost use Rattle.fork_store.specs.inside.Keepers.{IsStepOn, IsStateBehind};
ghost use Rattle.fork_store.specs.Stays.{ArrayStays, KeeperStays};
ghost use Rattle.fork_store.specs.Stores.{IsKept, IsLate, IsRootOf, IsBehind, first_epoch};
ghost use Rattle.fork_store.specs.Trees.{HasParent};
ghost use Rattle.spec_fork_choice.specs.Slots.{start_slot_of};
ghost use Rattle.spec_fork_choice.specs.OnBlock.{with_block, with_accepted, block_step, accept_block, on_block};
ghost use Rattle.spec_fork_choice.specs.Clash.{clash_of};
ghost use Rattle.fork_store.specs.Events.{Accepts};
ghost use Rattle.fork_store.specs.Done.{IsDone};
ghost use Rattle.fork_store.specs.Seen.{StoreStays};
ghost use Rattle.epoch_visitor.specs.Shown.{shown_all};

use crate::block_in::BlockIn;
use crate::chain_stepper::ChainStepper;
use crate::clashes::clash_of;
use crate::feed::{Given, feed};
use crate::follow::{follow, told_of};
use crate::get_ancestor::ancestor_of;
use crate::kept_blocks::node_number;
use crate::kept_state::kept_state;
use crate::made_step::MadeStep;
use crate::ready_balances::{ReadyBalances, balances_of};
use crate::settle::{boost, facts_of, justify, may_be_left, may_move};
use crate::slots::{current_slot, start_slot};
use crate::step_again::step_again;
use crate::store::Store;
use crate::store_fields::StoreFields;
use crate::store_target_checkpoint_state::keep_checkpoint_state;
use bc_words::{NoMemory, Refusal, Stop, StoreStop};
use beacon_state::State;
use beacon_types::{BeaconBlock, Checkpoint, SignedBeaconBlock, same_checkpoint};
use block_array::{BlockArray, Facts};
use epoch_visitor::{Seen, Visitor, Watched};
use hash_tree::Root;
use state_keeper::Keeper;
use std::alloc::Global;
use transition::state_transition::visit_step;

/// The checks of a block whose parent is the kept block of this number.
#[tactic(auto, unfolding(crate::specs::inside::Accepted::check_block))]
pub fn check_block(
    store: &StoreFields,
    array: &BlockArray,
    parent: u32,
    block: &BeaconBlock,
) -> Result<(), Stop>
    requires nodes { AreNodesOf store.now.blocks array.now.nodes }
    requires number { Some parent ≡ node_number store.now.blocks block.now.parent_root }
    ensures { GivesExactly result (check_block store.now block.now) }
{
    if block.slot > current_slot(store) {
        return Err(Stop::Refused(Refusal::FutureBlock));
    }
    let finalized_slot = start_slot(store, store.finalized());
    if u128::from(block.slot) <= finalized_slot {
        return Err(Stop::Refused(Refusal::BeforeFinalized));
    }
    if ancestor_of(store, array, parent, block.parent_root, finalized_slot)
        != store.finalized().root
    {
        return Err(Stop::Refused(Refusal::NotOnFinalized));
    }
    Ok(())
}

/// The step of the state behind a block's kept parent by the block, whose checks passed. The visitor is shown the states that it enters.
fn step_from<V: Visitor>(
    alloc: Global,
    store: &StoreFields,
    parent: State,
    block: &SignedBeaconBlock,
    visitor: &mut Watched<V>,
) -> Result<MadeStep, Stop>
    requires chained { IsChained store.now }
    requires parent { IsStateBehind store.now.blocks block.now.message.parent_root parent }
    requires low { block.now.message.slot < 2 ^ 64 }
    requires checked { IsDone (check_block store.now block.now.message) }
    ensures step { Gives result (block_step store.now block.now) }
    ensures behind { IfOk result (λ step. IsBehind block.now.message step.state) }
    ensures preset { IfOk result (λ step. step.state.preset ≡ store.now.config.preset) }
    ensures parent { IfOk result (λ _. HasParent store.now.blocks block.now.message) }
    ensures linked { IfOk result (λ step. IsLinked store.now.config store.now.blocks step.state) }
    ensures stepped { IfOk result (λ step. IsStepOn store.now.config store.now.blocks block.now step.state) }
    ensures shown { IfOk result (λ step. visitor.new.visitor ≡ shown_all V.shown visitor.old.visitor step.entered) }
{
    store.is_sound();
    let step = visit_step(alloc, parent, block, store.config(), visitor)?;
    Ok(MadeStep::of(step))
}

/// The number of a block's parent. Refused where it isn't kept.
#[tactic(auto, using(crate::proofs::Stepping::parent_unknown))]
pub fn parent_number(store: &StoreFields, block: &SignedBeaconBlock) -> Result<u32, Stop>
    requires few { length store.now.blocks < 2 ^ 32 }
    ensures number { IfOk result (λ parent. Some parent ≡ node_number store.now.blocks block.now.message.parent_root) }
    ensures unknown { IfErr result (λ stop. Stops stop (block_step store.now block.now)) }
{
    match node_number(store.blocks(), block.message.parent_root) {
        Some(parent) => Ok(parent),
        None => Err(Stop::Refused(Refusal::ParentUnknown)),
    }
}

/// The checks of a block whose parent's number is known, and the step of the parent's state by it. The visitor is shown the states
/// that it enters. The keeper is as before.
#[tactic(auto, using(crate::proofs::Stepping::check_stops))]
fn block_step<V: Visitor>(
    alloc: Global,
    store: &StoreFields,
    keeper: &mut Keeper<ChainStepper>,
    array: &BlockArray,
    parent: u32,
    block: &SignedBeaconBlock,
    visitor: &mut Watched<V>,
) -> Result<MadeStep, Stop>
    requires number { Some parent ≡ node_number store.now.blocks block.now.message.parent_root }
    requires nodes { AreNodesOf store.now.blocks array.now.nodes }
    requires chained { IsChained store.now }
    requires keeper { IsKeeperOf store.now keeper.old }
    ensures step { Gives result (block_step store.now block.now) }
    ensures behind { IfOk result (λ step. IsBehind block.now.message step.state) }
    ensures preset { IfOk result (λ step. step.state.preset ≡ store.now.config.preset) }
    ensures parent { IfOk result (λ _. HasParent store.now.blocks block.now.message) }
    ensures linked { IfOk result (λ step. IsLinked store.now.config store.now.blocks step.state) }
    ensures stepped { IfOk result (λ step. IsStepOn store.now.config store.now.blocks block.now step.state) }
    ensures shown { IfOk result (λ step. visitor.new.visitor ≡ shown_all V.shown visitor.old.visitor step.entered) }
    ensures same { keeper.new ≡ keeper.old }
{
    let _slot = block.message.slot;
    check_block(store, array, parent, &block.message)?;
    match kept_state(store.blocks(), keeper, parent) {
        Ok(state) => step_from(alloc, store, state, block, visitor),
        Err(_) => Err(Stop::NoMemory),
    }
}

/// The state's finalized checkpoint is taken where it is of a greater epoch, and its justified one with it.
#[tactic(auto, unfolding(crate::specs::inside::Accepted::finalized_by))]
fn finalize(store: &mut StoreFields, finalized: Checkpoint, justified: Checkpoint)
    requires low { start_slot_of store.old justified < 2 ^ 64 }
    requires late { first_epoch store.old.config.preset store.old.blocks < finalized.epoch → IsLate store.old justified }
    ensures { store.new ≡ finalized_by store.old finalized justified }
{
    if store.finalized().epoch < finalized.epoch {
        store.set_finalized(finalized);
        store.set_justified(justified);
    }
}

/// Boost and checkpoints behind a block of this slot and root whose state has these checkpoints.
#[tactic(auto, unfolding(crate::specs::inside::Accepted::settled))]
fn settle(
    store: &mut StoreFields,
    array: &BlockArray,
    slot: u64,
    root: Root,
    justified: Checkpoint,
    finalized: Checkpoint,
)
    requires nodes { AreNodesOf store.old.blocks array.now.nodes }
    requires low { start_slot_of store.old justified < 2 ^ 64 }
    requires late { first_epoch store.old.config.preset store.old.blocks < finalized.epoch → IsLate store.old justified }
    ensures { store.new ≡ settled store.old slot root justified finalized }
{
    boost(store, slot, root);
    justify(store, array, justified);
    finalize(store, finalized, justified);
}

/// Keeps the state of a justified checkpoint that may become the store's. What contracts see of the store and the keeper stays.
#[tactic(auto, using(crate::proofs::Numbers::justified_is_low))]
fn keep_justified(
    alloc: Global,
    store: &mut StoreFields,
    keeper: &mut Keeper<ChainStepper>,
    state: &State,
    facts: Facts,
) -> Result<(), NoMemory>
    requires sound { IsSound state.now }
    requires preset { state.now.preset ≡ store.old.config.preset }
    requires facts { facts ≡ record { justified = state.now.current_justified_checkpoint; finalized = state.now.finalized_checkpoint } }
    requires keeper { IsKeeperOf store.old keeper.old }
    ensures same { store.new ≡ store.old }
    ensures keeper { keeper.new ≡ keeper.old }
{
    let _slot = state.slot();
    if may_move(store, facts) {
        keep_checkpoint_state(alloc, store, keeper, facts.justified)
    } else {
        Ok(())
    }
}

/// The balances of the best justified checkpoint, where this one may leave it behind with none held ready. The keeper is as before.
fn prepare_best(
    alloc: Global,
    store: &StoreFields,
    keeper: &mut Keeper<ChainStepper>,
    justified: Checkpoint,
) -> Result<Option<ReadyBalances>, NoMemory>
    requires keeper { IsKeeperOf store.now keeper.old }
    ensures best { IfOk result (λ best. may_be_left store.now justified ≡ true → AreReady store.now best store.now.best_justified_checkpoint) }
    ensures same { keeper.new ≡ keeper.old }
{
    if !may_be_left(store, justified) {
        return Ok(None);
    }
    let best = balances_of(alloc, store, keeper, store.best_justified())?;
    Ok(Some(best))
}

/// The balances that a block's justified checkpoint may need, where it may move the store's and isn't the best justified one. The
/// keeper is as before.
#[tactic(auto, using(crate::proofs::Preparing::preparing))]
fn prepare(
    alloc: Global,
    store: &StoreFields,
    keeper: &mut Keeper<ChainStepper>,
    facts: Facts,
) -> Result<Given, NoMemory>
    requires low { start_slot_of store.now facts.justified < 2 ^ 64 }
    requires keeper { IsKeeperOf store.now keeper.old }
    ensures given { IfOk result (λ given. AreGiven store.now given.justified given.best_justified facts.justified facts.finalized) }
    ensures same { keeper.new ≡ keeper.old }
{
    if !may_move(store, facts) || same_checkpoint(&facts.justified, &store.best_justified()) {
        return Ok(Given {
            justified: None,
            best_justified: None,
        });
    }
    let justified = balances_of(alloc, store, keeper, facts.justified)?;
    let best_justified = prepare_best(alloc, store, keeper, facts.justified)?;
    Ok(Given {
        justified: Some(justified),
        best_justified,
    })
}

/// Keeps a block that isn't kept yet with its state, and adds its node to the array. Where memory is refused, all is as before but
/// for room that was made: it is made first.
fn add_block(
    alloc: Global,
    store: &mut StoreFields,
    keeper: &mut Keeper<ChainStepper>,
    array: &mut BlockArray,
    parent: u32,
    block: &SignedBeaconBlock,
    root: Root,
    state: State,
    facts: Facts,
) -> Result<(), NoMemory>
    requires array { IsArrayOf store.old array.old }
    requires keeper { IsKeeperOf store.old keeper.old }
    requires few { length store.old.blocks < 2 ^ 32 - 1 }
    requires number { Some parent ≡ node_number store.old.blocks block.now.message.parent_root }
    requires kept { IsKept (kept_of root block.now.message state) }
    requires facts { facts ≡ record { justified = state.current_justified_checkpoint; finalized = state.finalized_checkpoint } }
    requires preset { state.preset ≡ store.old.config.preset }
    requires parent { HasParent store.old.blocks block.now.message }
    requires step { IsStepOn store.old.config store.old.blocks block.now state }
    requires fresh { is_kept store.old.blocks root ≡ false }
    requires named { same_root root zero_root ≡ false }
    ensures exact { Becomes result store.old store.new (record store.old { blocks = store.old.blocks ++ kept_of root block.now.message state ∷ [] }) }
    ensures array { IsArrayOf store.new array.new }
    ensures keeper { IsKeeperOf store.new keeper.new }
    ensures stays { store.new.justified_checkpoint ≡ store.old.justified_checkpoint }
    ensures balances_set_stays { array.new.balances_set ≡ array.old.balances_set }
    ensures array_stays { IfErr result (λ _. ArrayStays array.old array.new) }
    ensures keeper_stays { IfErr result (λ _. KeeperStays keeper.old keeper.new) }
{
    store.is_sound();
    array.reserve(0)?;
    let copy = block.copy(alloc)?;
    store.keep(keeper, parent, root, copy, state)?;
    let _room = array.push(parent, block.message.slot, root, facts);
    Ok(())
}

/// Keeps the block with its state, unless it is kept already. Where memory is refused, all is as before but for room.
#[tactic(auto, using(crate::proofs::Adding::keeping), unfolding(spec_fork_choice::specs::OnBlock::with_block, spec_fork_choice::specs::Store::is_kept))]
fn keep_block(
    alloc: Global,
    store: &mut StoreFields,
    keeper: &mut Keeper<ChainStepper>,
    array: &mut BlockArray,
    parent: u32,
    block: &SignedBeaconBlock,
    root: Root,
    state: State,
    facts: Facts,
) -> Result<(), NoMemory>
    requires array { IsArrayOf store.old array.old }
    requires keeper { IsKeeperOf store.old keeper.old }
    requires few { length store.old.blocks < 2 ^ 32 - 1 }
    requires number { Some parent ≡ node_number store.old.blocks block.now.message.parent_root }
    requires kept { IsKept (kept_of root block.now.message state) }
    requires facts { facts ≡ record { justified = state.current_justified_checkpoint; finalized = state.finalized_checkpoint } }
    requires preset { state.preset ≡ store.old.config.preset }
    requires parent { HasParent store.old.blocks block.now.message }
    requires step { IsStepOn store.old.config store.old.blocks block.now state }
    requires named { same_root root zero_root ≡ false }
    ensures exact { Becomes result store.old store.new (with_block store.old (kept_of root block.now.message state)) }
    ensures array { IsArrayOf store.new array.new }
    ensures keeper { IsKeeperOf store.new keeper.new }
    ensures stays { store.new.justified_checkpoint ≡ store.old.justified_checkpoint }
    ensures balances_set_stays { array.new.balances_set ≡ array.old.balances_set }
    ensures array_stays { IfErr result (λ _. ArrayStays array.old array.new) }
    ensures keeper_stays { IfErr result (λ _. KeeperStays keeper.old keeper.new) }
{
    if store.is_kept(root) {
        return Ok(());
    }
    add_block(
        alloc, store, keeper, array, parent, block, root, state, facts,
    )
}

/// Boost and checkpoints behind a kept block of this slot and root whose state has these checkpoints, and the array follows.
#[tactic(auto, using(crate::proofs::Settling::settling, crate::proofs::Walks::array_nodes))]
fn settle_whole(
    store: &mut StoreFields,
    array: &mut BlockArray,
    ready: &mut Option<ReadyBalances>,
    given: &mut Given,
    slot: u64,
    root: Root,
    facts: Facts,
)
    requires low { start_slot_of store.old facts.justified < 2 ^ 64 }
    requires late { first_epoch store.old.config.preset store.old.blocks < facts.finalized.epoch → IsLate store.old facts.justified }
    requires few { length store.old.blocks < 2 ^ 32 }
    requires array { IsArrayOf store.old array.old }
    requires ready { IsReady store.old ready.old }
    requires given { AreGiven store.old given.old.justified given.old.best_justified facts.justified facts.finalized }
    requires justified { may_move store.old facts.justified facts.finalized ≡ true → is_kept store.old.blocks facts.justified.root ≡ true }
    requires kept { is_kept store.old.blocks root ≡ true }
    ensures exact { store.new ≡ settled store.old slot root facts.justified facts.finalized }
    ensures array { IsArrayOf store.new array.new }
    ensures ready { IsReady store.new ready.new }
    ensures balances_set_stays { store.new.justified_checkpoint ≡ store.old.justified_checkpoint → array.new.balances_set ≡ array.old.balances_set }
{
    let before = told_of(store);
    settle(store, array, slot, root, facts.justified, facts.finalized);
    feed(store, array, ready, given, &before, root, facts);
    follow(store, array, &before);
}

/// Takes a valid block into the store. Where memory is refused, all is as before but for room that was made: it is made first.
#[tactic(auto, using(crate::proofs::AcceptedBlocks::mid_low, crate::proofs::Numbers::justified_is_low))]
fn accept(
    alloc: Global,
    store: &mut StoreFields,
    keeper: &mut Keeper<ChainStepper>,
    array: &mut BlockArray,
    ready: &mut Option<ReadyBalances>,
    parent: u32,
    block: &SignedBeaconBlock,
    root: Root,
    state: State,
    facts: Facts,
) -> Result<(), NoMemory>
    requires parts { AreParts store.old array.old keeper.old ready.old }
    requires few { length store.old.blocks < 2 ^ 32 - 1 }
    requires number { Some parent ≡ node_number store.old.blocks block.now.message.parent_root }
    requires facts { facts ≡ record { justified = state.current_justified_checkpoint; finalized = state.finalized_checkpoint } }
    requires kept { IsKept (kept_of root block.now.message state) }
    requires preset { state.preset ≡ store.old.config.preset }
    requires parent { HasParent store.old.blocks block.now.message }
    requires named { same_root root zero_root ≡ false }
    requires linked { IsLinked store.old.config store.old.blocks state }
    requires stepped { IsStepOn store.old.config store.old.blocks block.now state }
    ensures exact { Becomes result store.old store.new (with_accepted store.old (kept_of root block.now.message state)) }
    ensures parts { AreParts store.new array.new keeper.new ready.new }
    ensures balances_set_stays { store.new.justified_checkpoint ≡ store.old.justified_checkpoint → array.new.balances_set ≡ array.old.balances_set }
    ensures array_stays { IfErr result (λ _. ArrayStays array.old array.new) }
    ensures keeper_stays { IfErr result (λ _. KeeperStays keeper.old keeper.new) }
{
    store.is_sound();
    let _slot = state.slot();
    let mut given = prepare(alloc, store, keeper, facts)?;
    keep_block(
        alloc, store, keeper, array, parent, block, root, state, facts,
    )?;
    let slot = block.message.slot;
    settle_whole(store, array, ready, &mut given, slot, root, facts);
    Ok(())
}

/// Takes a valid block into the store, unless its root is no name for it alone.
#[tactic(auto, using(crate::proofs::Steps::is_kept))]
pub fn accept_unless(
    alloc: Global,
    store: &mut StoreFields,
    keeper: &mut Keeper<ChainStepper>,
    array: &mut BlockArray,
    ready: &mut Option<ReadyBalances>,
    parent: u32,
    block: &SignedBeaconBlock,
    root: Root,
    step: MadeStep,
) -> Result<BlockIn, StoreStop>
    requires number { Some parent ≡ node_number store.old.blocks block.now.message.parent_root }
    requires parts { AreParts store.old array.old keeper.old ready.old }
    requires few { length store.old.blocks < 2 ^ 32 - 1 }
    requires root { IsRootOf root block.now.message }
    requires behind { IsBehind block.now.message step.state }
    requires parent { HasParent store.old.blocks block.now.message }
    requires preset { step.state.preset ≡ store.old.config.preset }
    requires linked { IsLinked store.old.config store.old.blocks step.state }
    requires stepped { IsStepOn store.old.config store.old.blocks block.now step.state }
    ensures exact { Accepts result store.old store.new (accept_block store.old block.now.message root step (clash_of store.old.blocks root block.now.message.state_root block.now.message)) }
    ensures entered { IfOk result (λ given. given.entered ≡ step.entered) }
    ensures parts { AreParts store.new array.new keeper.new ready.new }
    ensures balances_set_stays { store.new.justified_checkpoint ≡ store.old.justified_checkpoint → array.new.balances_set ≡ array.old.balances_set }
    ensures array_stays { IfErr result (λ _. ArrayStays array.old array.new) }
    ensures keeper_stays { IfErr result (λ _. KeeperStays keeper.old keeper.new) }
{
    let _slot = block.message.slot;
    match clash_of(store.blocks(), keeper, root, &block.message) {
        Some(kind) => Err(StoreStop::Clash(kind)),
        None => {
            let MadeStep { state, entered } = step;
            let facts = facts_of(&state);
            keep_justified(alloc, store, keeper, &state, facts)?;
            accept(
                alloc, store, keeper, array, ready, parent, block, root, state, facts,
            )?;
            Ok(BlockIn {
                root,
                state_root: block.message.state_root,
                entered,
            })
        }
    }
}

/// Takes a block into a store (fork-choice.md, `on_block`): it is checked, its parent's state is taken through it, and it is kept.
/// The signature isn't checked. Wherever the block isn't accepted, the store, its array and its keeper are as before, but for room that
/// was made.
///
/// Refused, in this order: as `ParentUnknown`, `FutureBlock`, `BeforeFinalized`, `NotOnFinalized`, and as the state transition is.
/// Limited as that is too. A clash comes last, where the block's root or state root is zero or another block of its root is kept.
/// Where the justified checkpoint stays, the array is given no balances. The visitor was shown the states that an accepted block entered.
#[tactic(auto, unfolding(spec_fork_choice::specs::OnBlock::on_block, crate::specs::Stores::IsRootOf, spec_transition::specs::StateTransition::IsLatest))]
fn on_block<V: Visitor>(
    alloc: Global,
    store: &mut StoreFields,
    keeper: &mut Keeper<ChainStepper>,
    array: &mut BlockArray,
    ready: &mut Option<ReadyBalances>,
    block: &SignedBeaconBlock,
    visitor: &mut Watched<V>,
) -> Result<BlockIn, StoreStop>
    requires parts { AreParts store.old array.old keeper.old ready.old }
    requires few { length store.old.blocks < 2 ^ 32 - 1 }
    ensures exact { Accepts result store.old store.new (on_block store.old block.now) }
    ensures shown { IfOk result (λ given. visitor.new.visitor ≡ shown_all V.shown visitor.old.visitor given.entered) }
    ensures parts { AreParts store.new array.new keeper.new ready.new }
    ensures balances_set_stays { store.new.justified_checkpoint ≡ store.old.justified_checkpoint → array.new.balances_set ≡ array.old.balances_set }
    ensures array_stays { IfErr result (λ _. ArrayStays array.old array.new) }
    ensures keeper_stays { IfErr result (λ _. KeeperStays keeper.old keeper.new) }
{
    let parent = parent_number(store, block)?;
    let step = block_step(alloc, store, keeper, array, parent, block, visitor)?;
    // the header behind the block is the block's, so the body isn't hashed once more
    let root = step.state.header_root();
    accept_unless(
        alloc, store, keeper, array, ready, parent, block, root, step,
    )
}

impl Store {
    /// Takes a block as `on_block` does, and shows a visitor each state on which epoch processing is entered on the way to the state
    /// behind it: where the block is accepted, it was shown all of them, also where the block was kept already. It is shown them
    /// as they are made, so where the block isn't accepted it may have been shown the first of them.
    pub fn visit_block<V: Visitor>(
        &mut self,
        alloc: Global,
        block: &SignedBeaconBlock,
        visitor: &mut Watched<V>,
    ) -> Result<BlockIn, StoreStop>
        requires few { length self.old.plain.blocks < 2 ^ 32 - 1 }
        ensures exact { Accepts result self.old.plain self.new.plain (on_block self.old.plain block.now) }
        ensures shown { IfOk result (λ given. visitor.new.visitor ≡ shown_all V.shown visitor.old.visitor given.entered) }
        ensures balances_set_stays { self.new.plain.justified_checkpoint ≡ self.old.plain.justified_checkpoint → self.new.array.balances_set ≡ self.old.array.balances_set }
        ensures stays { IfErr result (λ _. StoreStays self.old self.new) }
    {
        on_block(
            alloc,
            &mut self.fields,
            &mut self.keeper,
            &mut self.array,
            &mut self.ready,
            block,
            visitor,
        )
    }

    /// Takes a block (fork-choice.md, `on_block`): it is checked, its parent's state is taken through it, and it is kept. The
    /// signature isn't checked. Wherever the block isn't accepted, all is as before but for room that was made.
    ///
    /// Refused, in this order: as `ParentUnknown`, `FutureBlock`, `BeforeFinalized`, `NotOnFinalized`, and as the state
    /// transition is. Limited as that is too. A clash comes last, where the block's root or state root is zero or another block
    /// of its root is kept. Where the justified checkpoint stays, the array is given no balances. The state transition isn't run once
    /// more for a kept block that comes again among the next 64 kept ones behind its parent.
    pub fn on_block(
        &mut self,
        alloc: Global,
        block: &SignedBeaconBlock,
    ) -> Result<BlockIn, StoreStop>
        requires few { length self.old.plain.blocks < 2 ^ 32 - 1 }
        ensures exact { Accepts result self.old.plain self.new.plain (on_block self.old.plain block.now) }
        ensures balances_set_stays { self.new.plain.justified_checkpoint ≡ self.old.plain.justified_checkpoint → self.new.array.balances_set ≡ self.old.array.balances_set }
        ensures stays { IfErr result (λ _. StoreStays self.old self.new) }
    {
        match step_again(&self.fields, &mut self.keeper, block)? {
            Some(step) => self.on_made_block(alloc, block, step),
            None => {
                let mut visitor = Watched::new(Seen::new());
                self.visit_block(alloc, block, &mut visitor)
            }
        }
    }
}
