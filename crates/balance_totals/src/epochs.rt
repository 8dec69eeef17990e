//! The epochs of a state (beacon-chain.md, "Beacon state accessors").

ghost use Rattle.std.specs.Prelude.{◌≡◌, ◌≤◌, ◌^◌};
ghost use Rattle.spec_state.specs.Accessors.{get_current_epoch, get_previous_epoch};

use beacon_state::State;

/// The epoch of the state's slot (beacon-chain.md, `get_current_epoch`).
#[tactic(auto, unfolding(spec_state::specs::Accessors::get_current_epoch))]
pub fn current_epoch(state: &State) -> u64
    ensures exact { result ≡ get_current_epoch state.now }
    ensures low { result ≤ 2 ^ 61 }
{
    let preset = state.preset();
    preset.bounds();
    state.slot() / preset.slots_per_epoch
}

/// The epoch before the current one, or epoch 0 where there is none (beacon-chain.md, `get_previous_epoch`).
#[tactic(auto, unfolding(spec_state::specs::Accessors::get_previous_epoch))]
pub fn previous_epoch(state: &State) -> u64
    ensures exact { result ≡ get_previous_epoch state.now }
    ensures low { result ≤ 2 ^ 61 }
{
    current_epoch(state).saturating_sub(1)
}
