//! The step of a state by a block (beacon-chain.md, "Beacon chain state transition function").

ghost use Rattle.std.specs.Prelude.{◌≡◌, ℕ, ◌<◌, ◌^◌, false, IfOk};
ghost use Rattle.bc_words.specs.Outcome.{Gives, GivesBy, GivesExactly, done};
ghost use Rattle.bc_words.specs.declared.refusal.Refusal.TheVariants.{StateRoot};
ghost use Rattle.bc_preset.specs.Presets.{IsPreset};
ghost use Rattle.bc_preset.specs.declared.configuration.ConfigValues.{ConfigValues};
ghost use Rattle.beacon_types.specs.Equality.{same_root};
ghost use Rattle.spec_state.specs.declared.plain.PlainState.{PlainState};
ghost use Rattle.spec_state.specs.States.{state_codec};
ghost use Rattle.spec_state.specs.Genesis.{zero_root};
ghost use Rattle.spec_state.specs.Soundness.{IsSound};
ghost use Rattle.spec_blocks.specs.Checks.{check};
ghost use Rattle.spec_transition.specs.StateTransition.{IsLatest, IsNext, state_transition};
ghost use Rattle.spec_transition.specs.ProcessSlots.{Stepped, process_slots};
ghost use Rattle.epoch_visitor.specs.Shown.{shown_all};
ghost use Rattle.transition.specs.Shown.{showing, WasShown};
ghost use Rattle.transition.specs.inside.Visits.{transition_visited};

use crate::process_block::process_block;
use crate::process_slots::visit_slots;
use crate::step::Step;
use bc_preset::Config;
use bc_words::{Refusal, Stop};
use beacon_state::State;
use beacon_types::SignedBeaconBlock;
use epoch_visitor::{Seen, Visitor, Watched};
use hash_tree::Root;
use std::alloc::Global;
use std::mem;

/// Refused where a root isn't that of the state, which keeps its own, and then that of its latest block.
fn check_state_root(root: &Root, state: &mut State) -> Result<(), Stop>
    ensures same { state.new ≡ state.old }
    ensures exact { GivesExactly result (check (same_root root.now ((state_codec state.old.preset).hash_tree_root state.old)) StateRoot) }
{
    if *root != state.keep_root() {
        return Err(Stop::Refused(Refusal::StateRoot));
    }
    let _header = state.keep_header_root();
    Ok(())
}

/// The slots up to the block's, the block, and its state root.
#[tactic(auto, unfolding(crate::specs::inside::Visits::block_visited))]
fn take_block<V: Visitor>(
    alloc: Global,
    state: State,
    block: &SignedBeaconBlock,
    config: &Config,
    visitor: &mut V,
) -> Result<State, Stop>
    requires sound { IsSound state }
    ensures sound { IfOk result (λ now. IsSound now) }
    ensures slot { IfOk result (λ now. now.slot ≡ block.now.message.slot) }
    ensures preset { IfOk result (λ now. now.preset ≡ state.preset) }
    ensures step { GivesBy (λ now. (now, visitor.new)) result (transition_visited V.shown visitor.old state block.now config.now) }
    ensures seen { WasShown V.shown config.now state block.now.message.slot visitor.old visitor.new }
{
    let mut now = visit_slots(alloc, state, block.message.slot, config, visitor)?;
    process_block(alloc, &mut now, &block.message, config)?;
    check_state_root(&block.message.state_root, &mut now)?;
    Ok(now)
}

/// Takes the sound state through the slots up to the block's, and then through the block (beacon-chain.md,
/// `state_transition`), and shows a visitor each state on which epoch processing is entered. The new state is sound, of the block's
/// slot, and has the block as its latest one; after a stop there is none. The signature isn't checked. After a stop the
/// visitor was shown those of the first slots, and maybe the one whose processing stopped.
///
/// Refused, in this order: as the slots and the block are, and as `StateRoot` where the block's state root isn't that of the
/// state behind it. The new state keeps its root and the block's, which its next slot takes.
#[tactic(auto, using(crate::proofs::Visits::transition_shown))]
pub fn visit_transition<V: Visitor>(
    alloc: Global,
    state: State,
    block: &SignedBeaconBlock,
    config: &Config,
    visitor: &mut V,
) -> Result<State, Stop>
    requires sound { IsSound state }
    ensures sound { IfOk result (λ now. IsSound now) }
    ensures slot { IfOk result (λ now. now.slot ≡ block.now.message.slot) }
    ensures preset { IfOk result (λ now. now.preset ≡ state.preset) }
    ensures latest { IfOk result (λ now. IsLatest now block.now.message) }
    ensures step { GivesBy (λ now. (now, visitor.new)) result (showing V.shown visitor.old (state_transition state block.now config.now)) }
    ensures seen { WasShown V.shown config.now state block.now.message.slot visitor.old visitor.new }
{
    take_block(alloc, state, block, config, visitor)
}

/// Takes the sound state through the slots up to the block's, and then through the block (beacon-chain.md, `state_transition`), as
/// `visit_transition` does. The step tells clauses the states that the visitor was shown; none is kept.
#[tactic(auto, using(crate::proofs::Visits::stops_shown))]
pub fn visit_step<V: Visitor>(
    alloc: Global,
    state: State,
    block: &SignedBeaconBlock,
    config: &Config,
    watched: &mut Watched<V>,
) -> Result<Step, Stop>
    requires sound { IsSound state }
    ensures sound { IfOk result (λ step. IsSound step.state) }
    ensures slot { IfOk result (λ step. step.state.slot ≡ block.now.message.slot) }
    ensures preset { IfOk result (λ step. step.state.preset ≡ state.preset) }
    ensures latest { IfOk result (λ step. IsLatest step.state block.now.message) }
    ensures step { Gives result (state_transition state block.now config.now) }
    ensures shown { IfOk result (λ step. watched.new.visitor ≡ shown_all V.shown watched.old.visitor step.entered) }
    ensures seen { WasShown V.shown config.now state block.now.message.slot watched.old.visitor watched.new.visitor }
{
    watched.seen = Seen::new();
    let state = visit_transition(alloc, state, block, config, watched)?;
    let entered = mem::replace(&mut watched.seen, Seen::new());
    Ok(Step { state, entered })
}

/// Takes the sound state through the slots up to the block's, and then through the block (beacon-chain.md, `state_transition`), as
/// `visit_transition` does. The given state is untouched. The step tells clauses the states on which epoch processing was entered;
/// none is kept.
#[tactic(auto, using(crate::proofs::Visits::stops_shown))]
pub fn state_transition(
    alloc: Global,
    state: &State,
    block: &SignedBeaconBlock,
    config: &Config,
) -> Result<Step, Stop>
    requires sound { IsSound state.now }
    ensures sound { IfOk result (λ step. IsSound step.state) }
    ensures slot { IfOk result (λ step. step.state.slot ≡ block.now.message.slot) }
    ensures preset { IfOk result (λ step. step.state.preset ≡ state.now.preset) }
    ensures latest { IfOk result (λ step. IsLatest step.state block.now.message) }
    ensures step { Gives result (state_transition state.now block.now config.now) }
{
    let mut entered = Seen::new();
    let now = state.share()?;
    let state = visit_transition(alloc, now, block, config, &mut entered)?;
    Ok(Step { state, entered })
}

/// The law that the published checks of a block's slot and parent root hold of every block that the state transition takes:
/// of one on a sound state whose root isn't zero, where the block's parent root is the state's header root. It does nothing
/// when it runs.
pub fn header_checks_hold()
    ensures { (s : PlainState) (slot : ℕ) (config : ConfigValues) (t : Stepped) → process_slots s slot config ≡ done t → IsPreset s.preset → slot < 2 ^ 64 → same_root ((state_codec s.preset).hash_tree_root s) zero_root ≡ false → IsSound s → IsNext s t.state slot }
{}
