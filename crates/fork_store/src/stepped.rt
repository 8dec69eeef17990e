//! A block whose step was made before it came (fork-choice.md, "on_block").
//!
//! Block and step come from the maker of a chain, which needs the state behind a block for the block's state root. The store makes
//! its own checks and takes the step, in place of making it once more.

ghost use Rattle.std.specs.Prelude.{◌≡◌, ◌<◌, ◌≤◌, ◌-◌, ◌^◌, Some, true, false, length, IfErr, IfOk, IfSome};
ghost use Rattle.bc_words.specs.Outcome.{Gives};
ghost use Rattle.beacon_types.specs.Blocks.{signed_block_codec};
ghost use Rattle.spec_state.specs.Genesis.{header_root_of};
ghost use Rattle.spec_fork_choice.specs.OnBlock.{block_step, on_block};
ghost use Rattle.spec_fork_choice.specs.OnEvent.{handle_block, on_event};
ghost use Rattle.spec_fork_choice.specs.Store.{is_kept};
ghost use Rattle.fork_store.specs.Arrays.{AreNodesOf, node_number};
ghost use Rattle.fork_store.specs.Events.{Accepts, AcceptsBy, accepted_of};
ghost use Rattle.fork_store.specs.KeptStates.{IsStepOfKept, KeepsState};
ghost use Rattle.fork_store.specs.Seen.{StoreStays};
ghost use Rattle.fork_store.specs.Stays.{ArrayStays, KeeperStays};
ghost use Rattle.fork_store.specs.Stores.{IsBehind};
ghost use Rattle.fork_store.specs.Trees.{HasParent};
ghost use Rattle.fork_store.specs.inside.Chains.{IsChained, IsLinked};
ghost use Rattle.fork_store.specs.inside.Keepers.{IsStepOn};
ghost use Rattle.fork_store.specs.inside.Wholes.{AreParts};

use crate::block_in::BlockIn;
use crate::chain_stepper::ChainStepper;
use crate::made_step::MadeStep;
use crate::on_block::{accept_unless, check_block, parent_number};
use crate::on_event::Accepted;
use crate::ready_balances::ReadyBalances;
use crate::store::Store;
use crate::store_fields::StoreFields;
use bc_words::{Stop, StoreStop};
use beacon_types::{BeaconBlock, SignedBeaconBlock};
use block_array::BlockArray;
use hash_tree::Root;
use ssz_codec::Ssz;
use state_keeper::Keeper;
use std::alloc::Global;
use transition::Step;

/// The checks of a block whose parent's number is known, and the step by it, which was made of the parent's state.
#[tactic(auto, using(crate::proofs::Stepping::check_stops))]
fn checked_step(
    store: &StoreFields,
    array: &BlockArray,
    parent: u32,
    block: &SignedBeaconBlock,
    step: MadeStep,
) -> Result<MadeStep, Stop>
    requires number { Some parent ≡ node_number store.now.blocks block.now.message.parent_root }
    requires nodes { AreNodesOf store.now.blocks array.now.nodes }
    requires chained { IsChained store.now }
    requires low { block.now.message.slot < 2 ^ 64 }
    requires made { IsStepOfKept store.now block.now.message step }
    ensures step { Gives result (block_step store.now block.now) }
    ensures same { IfOk result (λ now. now ≡ step) }
    ensures behind { IfOk result (λ now. IsBehind block.now.message now.state) }
    ensures preset { IfOk result (λ now. now.state.preset ≡ store.now.config.preset) }
    ensures parent { IfOk result (λ _. HasParent store.now.blocks block.now.message) }
    ensures linked { IfOk result (λ now. IsLinked store.now.config store.now.blocks now.state) }
    ensures stepped { IfOk result (λ now. IsStepOn store.now.config store.now.blocks block.now now.state) }
{
    store.is_sound();
    check_block(store, array, parent, &block.message)?;
    Ok(step)
}

/// Takes a block with its step into a store, as `on_block` does.
#[tactic(auto, unfolding(spec_fork_choice::specs::OnBlock::on_block, crate::specs::Stores::IsRootOf, spec_transition::specs::StateTransition::IsLatest))]
fn on_stepped_block(
    alloc: Global,
    store: &mut StoreFields,
    keeper: &mut Keeper<ChainStepper>,
    array: &mut BlockArray,
    ready: &mut Option<ReadyBalances>,
    block: &SignedBeaconBlock,
    step: MadeStep,
) -> Result<BlockIn, StoreStop>
    requires parts { AreParts store.old array.old keeper.old ready.old }
    requires few { length store.old.blocks < 2 ^ 32 - 1 }
    requires made { IsStepOfKept store.old block.now.message step }
    ensures exact { Accepts result store.old store.new (on_block store.old block.now) }
    ensures kept { is_kept store.old.blocks (header_root_of step.state) ≡ false → IfOk result (λ _. KeepsState store.new (header_root_of step.state) step.state) }
    ensures parts { AreParts store.new array.new keeper.new ready.new }
    ensures balances_set_stays { store.new.justified_checkpoint ≡ store.old.justified_checkpoint → array.new.balances_set ≡ array.old.balances_set }
    ensures array_stays { IfErr result (λ _. ArrayStays array.old array.new) }
    ensures keeper_stays { IfErr result (λ _. KeeperStays keeper.old keeper.new) }
{
    let _slot = block.message.slot;
    let parent = parent_number(store, block)?;
    let step = checked_step(store, array, parent, block, step)?;
    let root = step.state.header_root();
    accept_unless(
        alloc, store, keeper, array, ready, parent, block, root, step,
    )
}

impl Store {
    /// Takes a block as `on_block` does, where the step by it was made already from the state that is kept behind its parent: the
    /// step isn't made once more.
    pub fn on_stepped_block(
        &mut self,
        alloc: Global,
        block: &SignedBeaconBlock,
        step: Step,
    ) -> Result<BlockIn, StoreStop>
        requires few { length self.old.plain.blocks < 2 ^ 32 - 1 }
        requires made { IsStepOfKept self.old.plain block.now.message step }
        ensures exact { Accepts result self.old.plain self.new.plain (on_block self.old.plain block.now) }
        ensures kept { is_kept self.old.plain.blocks (header_root_of step.state) ≡ false → IfOk result (λ _. KeepsState self.new.plain (header_root_of step.state) step.state) }
        ensures balances_set_stays { self.new.plain.justified_checkpoint ≡ self.old.plain.justified_checkpoint → self.new.array.balances_set ≡ self.old.array.balances_set }
        ensures stays { IfErr result (λ _. StoreStays self.old self.new) }
    {
        self.on_made_block(alloc, block, MadeStep::of(step))
    }

    /// The same with a step that was made now or when the block was kept.
    pub(crate) fn on_made_block(
        &mut self,
        alloc: Global,
        block: &SignedBeaconBlock,
        step: MadeStep,
    ) -> Result<BlockIn, StoreStop>
        requires few { length self.old.plain.blocks < 2 ^ 32 - 1 }
        requires made { IsStepOfKept self.old.plain block.now.message step }
        ensures exact { Accepts result self.old.plain self.new.plain (on_block self.old.plain block.now) }
        ensures kept { is_kept self.old.plain.blocks (header_root_of step.state) ≡ false → IfOk result (λ _. KeepsState self.new.plain (header_root_of step.state) step.state) }
        ensures balances_set_stays { self.new.plain.justified_checkpoint ≡ self.old.plain.justified_checkpoint → self.new.array.balances_set ≡ self.old.array.balances_set }
        ensures stays { IfErr result (λ _. StoreStays self.old self.new) }
    {
        on_stepped_block(
            alloc,
            &mut self.fields,
            &mut self.keeper,
            &mut self.array,
            &mut self.ready,
            block,
            step,
        )
    }

    /// Takes an event as `on_event` does, beside a block with the step by it: where the event is that block, which isn't kept yet, the
    /// step isn't made once more. Answers too whether the step's state is now kept as the one behind that block.
    #[tactic(auto, unfolding(spec_fork_choice::specs::OnEvent::on_event))]
    pub fn on_stepped_event(
        &mut self,
        alloc: Global,
        kind: u8,
        payload: &[u8],
        block: &BeaconBlock,
        step: Step,
    ) -> (Result<Accepted, StoreStop>, bool)
        requires few { length self.old.plain.blocks < 2 ^ 32 - 1 }
        requires first { 1 ≤ kind }
        requires last { kind ≤ 5 }
        requires made { IsStepOfKept self.old.plain block.now step }
        ensures exact { AcceptsBy accepted_of result.0 self.old.plain self.new.plain (on_event self.old.plain kind payload.now) }
        ensures kept { result.1 ≡ true → KeepsState self.new.plain (header_root_of step.state) step.state }
        ensures balances_set_stays { self.new.plain.justified_checkpoint ≡ self.old.plain.justified_checkpoint → self.new.array.balances_set ≡ self.old.array.balances_set }
        ensures stays { IfErr result.0 (λ _. StoreStays self.old self.new) }
    {
        if kind != 2 || self.is_kept(step.state.header_root()) {
            return (self.on_event(alloc, kind, payload), false);
        }
        match read_same(alloc, payload, block) {
            Some(signed) => self.take_stepped(alloc, &signed, step),
            None => (self.on_event(alloc, kind, payload), false),
        }
    }

    /// Whether a root is kept.
    fn is_kept(&self, root: Root) -> bool
        ensures { result ≡ is_kept self.now.plain.blocks root }
    {
        self.fields.is_kept(root)
    }

    /// The same of the block of an event that was read.
    #[tactic(auto, unfolding(spec_fork_choice::specs::OnEvent::handle_block), using(crate::proofs::Events::blocks))]
    fn take_stepped(
        &mut self,
        alloc: Global,
        block: &SignedBeaconBlock,
        step: Step,
    ) -> (Result<Accepted, StoreStop>, bool)
        requires few { length self.old.plain.blocks < 2 ^ 32 - 1 }
        requires made { IsStepOfKept self.old.plain block.now.message step }
        requires fresh { is_kept self.old.plain.blocks (header_root_of step.state) ≡ false }
        ensures exact { AcceptsBy accepted_of result.0 self.old.plain self.new.plain (handle_block self.old.plain (Some block.now)) }
        ensures kept { result.1 ≡ true → KeepsState self.new.plain (header_root_of step.state) step.state }
        ensures balances_set_stays { self.new.plain.justified_checkpoint ≡ self.old.plain.justified_checkpoint → self.new.array.balances_set ≡ self.old.array.balances_set }
        ensures stays { IfErr result.0 (λ _. StoreStays self.old self.new) }
    {
        match self.on_stepped_block(alloc, block, step) {
            Ok(given) => (Ok(Accepted::Block(given)), true),
            Err(stop) => (Err(stop), false),
        }
    }
}

/// The signed block that this is the writing of, if it is this one but for its signature. None where memory is refused, too.
fn read_same(alloc: Global, payload: &[u8], block: &BeaconBlock) -> Option<SignedBeaconBlock>
    ensures { IfSome result (λ signed. (signed_block_codec.deserialize payload.now ≡ Some signed) × (signed.message ≡ block.now)) }
{
    match SignedBeaconBlock::read(alloc, payload) {
        Ok(signed) => {
            if signed.message.equals(block) {
                Some(signed)
            } else {
                None
            }
        }
        Err(_) => None,
    }
}
