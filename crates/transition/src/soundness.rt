//! Sound states: the condition of the state transition's calls.

ghost use Rattle.std.specs.Prelude.{◌≡◌, ◌↔◌, ◌&&◌, IsTrue, IfOk, None};
ghost use Rattle.spec_state.specs.declared.plain.PlainState.{PlainState};
ghost use Rattle.spec_state.specs.Genesis.{genesis_fault};
ghost use Rattle.spec_state.specs.Soundness.{IsSound, IsSoundTo, IsSoundWithinEpoch};
ghost use Rattle.transition.specs.inside.Tests.{figures_test, justified_test};

use crate::pending::{Pending, attestations_are_sound, epoch_of};
use bc_words::NoMemory;
use beacon_state::State;
use std::alloc::Global;

/// Whether the justified epochs are at most `justified`.
fn is_justified_by(state: &State, justified: u64) -> bool
    ensures { result ≡ justified_test justified state.now }
{
    state.previous_justified_checkpoint().epoch <= justified
        && state.current_justified_checkpoint().epoch <= justified
}

/// Whether balances, header and checkpoints are sound, and nothing is pending before the first epoch. The justified epochs
/// are at most `justified`.
fn figures_are_sound(state: &State, justified: u64) -> bool
    ensures { result ≡ figures_test justified state.now }
{
    let previous = epoch_of(state, Pending::Previous);
    let current = epoch_of(state, Pending::Current);
    state.balances_len() == state.validators_len()
        && state.latest_block_header().slot <= state.slot()
        && is_justified_by(state, justified)
        && state.finalized_checkpoint().epoch <= previous
        && (current != 0 || state.previous_epoch_attestations_len() == 0)
}

/// Whether all three hold.
fn all_hold(figures: bool, previous: bool, current: bool) -> bool
    ensures { result ≡ (figures && (previous && current)) }
{
    figures && previous && current
}

/// Whether the state is sound, so that it may be given to the state transition.
pub fn is_sound(alloc: Global, state: &State) -> Result<bool, NoMemory>
    ensures { IfOk result (λ sound. IsTrue sound ↔ IsSound state.now) }
{
    let justified = epoch_of(state, Pending::Previous);
    is_sound_to(alloc, state, justified)
}

/// Whether the state is sound within epoch processing, so that it may be given to the parts behind justification: the
/// current epoch may be justified already.
pub fn is_sound_within_epoch(alloc: Global, state: &State) -> Result<bool, NoMemory>
    ensures { IfOk result (λ sound. IsTrue sound ↔ IsSoundWithinEpoch state.now) }
{
    let justified = epoch_of(state, Pending::Current);
    is_sound_to(alloc, state, justified)
}

/// Whether the state is sound, where the justified epochs are at most `justified`.
#[tactic(auto, using(crate::proofs::Tests::sound_exactly))]
fn is_sound_to(alloc: Global, state: &State, justified: u64) -> Result<bool, NoMemory>
    ensures { IfOk result (λ sound. IsTrue sound ↔ IsSoundTo justified state.now) }
{
    let _preset = state.preset();
    let previous = attestations_are_sound(alloc, state, Pending::Previous)?;
    let current = attestations_are_sound(alloc, state, Pending::Current)?;
    let figures = figures_are_sound(state, justified);
    Ok(all_hold(figures, previous, current))
}

/// The law that a genesis that the check accepts is sound. It does nothing when it runs.
pub fn genesis_is_sound()
    ensures { (state : PlainState) → genesis_fault state ≡ None → IsSound state }
{}

/// The law that a sound state has what the parts of epoch processing behind justification need. It does nothing when it
/// runs.
#[tactic(auto, using(spec_epochs::proofs::SoundJustification::sound_within))]
pub fn sound_within_epoch()
    ensures { (state : PlainState) → IsSound state → IsSoundWithinEpoch state }
{}
