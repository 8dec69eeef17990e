//! The way of a state through slots without a block (beacon-chain.md, "process_slots").

ghost use Rattle.std.specs.Prelude.{◌≡◌, ◌+◌, ◌<◌, ◌^◌, IfOk, OnErr, OnOk};
ghost use Rattle.bc_words.specs.Outcome.{Gives, GivesBy, Moves};
ghost use Rattle.spec_state.specs.Soundness.{IsSound};
ghost use Rattle.spec_transition.specs.ProcessSlot.{process_slot};
ghost use Rattle.spec_transition.specs.ProcessSlots.{is_last_of_epoch, process_slots};
ghost use Rattle.transition.specs.Shown.{showing, WasShown};
ghost use Rattle.transition.specs.inside.Visits.{end_visited, next_visited, visited, IsLeft};

use crate::process_epoch::process_epoch;
use crate::process_slot::close_slot;
use crate::step::Step;
use bc_preset::Config;
use bc_preset::constants::MAX_SLOTS;
use bc_words::{Limit, NoMemory, Refusal, Stop};
use beacon_state::State;
use epoch_visitor::{Seen, Visitor};
use std::alloc::Global;

/// Whether the state's slot is the last one of its epoch.
#[tactic(auto, unfolding(spec_transition::specs::ProcessSlots::is_last_of_epoch))]
fn is_last_of_epoch(state: &State) -> bool
    requires { state.now.slot + 1 < 2 ^ 64 }
    ensures { result ≡ is_last_of_epoch state.now }
{
    let preset = state.preset();
    preset.bounds();
    (state.slot() + 1) % preset.slots_per_epoch == 0
}

/// The epoch's processing where the state's slot is its last one. The visitor is shown the state as it is before it.
#[tactic(auto, unfolding(crate::specs::inside::Visits::end_visited))]
fn end_epoch<V: Visitor>(
    alloc: Global,
    state: &mut State,
    visitor: &mut V,
    config: &Config,
) -> Result<(), Stop>
    requires later { state.old.slot + 1 < 2 ^ 64 }
    requires sound { IsSound state.old }
    ensures step { Moves result (state.new, visitor.new) (end_visited V.shown config.now (state.old, visitor.old)) }
    ensures slot { IfOk result (λ _. state.new.slot ≡ state.old.slot) }
    ensures left { OnErr result (IsLeft V.shown visitor.old visitor.new state.old) }
{
    if !is_last_of_epoch(state) {
        return Ok(());
    }
    visitor.enter(alloc, state)?;
    process_epoch(alloc, state, config)?;
    Ok(())
}

/// Ends the slot of a sound state, which stays sound. The slot itself doesn't grow.
#[tactic(auto, using(spec_transition::proofs::Sound::slot_end_sound, spec_transition::proofs::HeaderChecks::ended))]
fn end_slot(state: &mut State) -> Result<(), NoMemory>
    ensures step { OnOk result (state.new ≡ process_slot state.old) }
    ensures slot { IfOk result (λ _. state.new.slot ≡ state.old.slot) }
    ensures sound { IfOk result (λ _. IsSound state.old → IsSound state.new) }
{
    close_slot(state)
}

/// One slot: it ends, and its epoch where it is the last one, and the next one begins.
#[tactic(auto, unfolding(crate::specs::inside::Visits::next_visited, spec_transition::specs::ProcessSlots::with_next_slot))]
fn next_slot<V: Visitor>(
    alloc: Global,
    state: &mut State,
    visitor: &mut V,
    config: &Config,
) -> Result<(), Stop>
    requires later { state.old.slot + 1 < 2 ^ 64 }
    requires sound { IsSound state.old }
    ensures step { Moves result (state.new, visitor.new) (next_visited V.shown config.now (state.old, visitor.old)) }
    ensures left { OnErr result (IsLeft V.shown visitor.old visitor.new (process_slot state.old)) }
{
    end_slot(state)?;
    end_epoch(alloc, state, visitor, config)?;
    let slot = state.slot();
    state.set_slot(slot + 1);
    Ok(())
}

/// All slots up to this one.
#[tactic(auto, using(bc_words::proofs::Folds::each_index))]
fn go_to<V: Visitor>(
    alloc: Global,
    state: State,
    slot: u64,
    config: &Config,
    visitor: &mut V,
) -> Result<State, Stop>
    requires later { state.slot < slot }
    requires sound { IsSound state }
    ensures sound { IfOk result (λ now. IsSound now) }
    ensures slot { IfOk result (λ now. now.slot ≡ slot) }
    ensures preset { IfOk result (λ now. now.preset ≡ state.preset) }
    ensures step { GivesBy (λ now. (now, visitor.new)) result (visited V.shown visitor.old state slot config.now) }
    ensures seen { WasShown V.shown config.now state slot visitor.old visitor.new }
{
    state.preset().bounds();
    let begin = state.slot();
    let mut now = state;
    for index in begin..slot {
        next_slot(alloc, &mut now, visitor, config)?;
    }
    Ok(now)
}

/// Takes the sound state through all slots up to this one (beacon-chain.md, `process_slots`), and shows a visitor each state on
/// which epoch processing is entered. The new state is sound; after a stop there is none. The visitor was
/// shown all of them, and after a stop those of the first slots, and maybe the one whose processing stopped.
///
/// Refused as not later for a slot that isn't behind the state's, limited where it is more than `MAX_SLOTS` behind it, and
/// else refused where the processing of an epoch is.
#[tactic(auto, unfolding(spec_transition::specs::ProcessSlots::process_slots, crate::specs::Shown::showing))]
pub fn visit_slots<V: Visitor>(
    alloc: Global,
    state: State,
    slot: u64,
    config: &Config,
    visitor: &mut V,
) -> Result<State, Stop>
    requires sound { IsSound state }
    ensures sound { IfOk result (λ now. IsSound now) }
    ensures slot { IfOk result (λ now. now.slot ≡ slot) }
    ensures preset { IfOk result (λ now. now.preset ≡ state.preset) }
    ensures step { GivesBy (λ now. (now, visitor.new)) result (showing V.shown visitor.old (process_slots state slot config.now)) }
    ensures seen { WasShown V.shown config.now state slot visitor.old visitor.new }
{
    if slot <= state.slot() {
        return Err(Stop::Refused(Refusal::SlotNotLater));
    }
    if slot - state.slot() > MAX_SLOTS {
        return Err(Stop::Limit(Limit::Slots(slot - state.slot())));
    }
    go_to(alloc, state, slot, config, visitor)
}

/// Takes the sound state through all slots up to this one (beacon-chain.md, `process_slots`), as `visit_slots` does. The given state
/// is untouched. The step tells clauses the states on which epoch processing was entered; none is kept.
#[tactic(auto, using(crate::proofs::Visits::stops_shown))]
pub fn process_slots(alloc: Global, state: &State, slot: u64, config: &Config) -> Result<Step, Stop>
    requires sound { IsSound state.now }
    ensures sound { IfOk result (λ step. IsSound step.state) }
    ensures slot { IfOk result (λ step. step.state.slot ≡ slot) }
    ensures preset { IfOk result (λ step. step.state.preset ≡ state.now.preset) }
    ensures step { Gives result (process_slots state.now slot config.now) }
{
    let mut entered = Seen::new();
    let now = state.share()?;
    let state = visit_slots(alloc, now, slot, config, &mut entered)?;
    Ok(Step { state, entered })
}
