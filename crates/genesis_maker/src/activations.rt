//! The validators of a genesis (beacon-chain.md, "Genesis", "Process activations"): each has the effective balance that its
//! deposits make, and one with the greatest is active.

ghost use Rattle.std.specs.Prelude.{◌≡◌, IfOk, drop, slice_get};
ghost use Rattle.bc_preset.specs.Presets.{IsPreset};
ghost use Rattle.bc_words.specs.Outcome.{Becomes};
ghost use Rattle.spec_genesis.specs.InitializeBeaconStateFromEth1.{genesis_validator, genesis_validators, with_activations};
ghost use Rattle.genesis_maker.specs.inside.Gathered.{with_balance};

use bc_preset::Preset;
use bc_words::NoMemory;
use beacon_state::{Entry, State};
use beacon_types::Validator;
use shared_tree::Numbers;
use std::alloc::Global;

/// A validator at genesis, with its balance in Gwei.
#[tactic(auto, unfolding(spec_genesis::specs::InitializeBeaconStateFromEth1::genesis_validator), using(bc_preset::proofs::Bounds::preset_bounds))]
fn genesis_validator(preset: &Preset, validator: &Entry, balance: u64) -> Validator
    requires { IsPreset preset.now }
    ensures { result ≡ genesis_validator preset.now validator.now balance }
{
    let whole = balance - balance % preset.effective_balance_increment;
    let mut credited = validator.validator();
    credited.effective_balance = whole.min(preset.max_effective_balance);
    if credited.effective_balance == preset.max_effective_balance {
        credited.activation_eligibility_epoch = 0;
        credited.activation_epoch = 0;
    }
    credited
}

/// The same, where there may be no balance.
fn with_balance(preset: &Preset, validator: &Entry, balance: Option<u64>) -> Validator
    requires { IsPreset preset.now }
    ensures { result ≡ with_balance preset.now validator.now balance }
{
    match balance {
        Some(balance) => genesis_validator(preset, validator, balance),
        None => validator.validator(),
    }
}

/// The next balance, in Gwei, or None where none is left.
fn next_balance(balances: &mut Numbers<'_>) -> Option<u64>
    ensures first { result ≡ slice_get balances.old 0 }
    ensures others { balances.new ≡ drop 1 balances.old }
{
    balances.next()
}

/// Each validator with its balance.
#[tactic(auto, using(crate::proofs::Gathered::gathering))]
fn genesis_validators(alloc: Global, state: &State) -> Result<Vec<Validator>, NoMemory>
    ensures { IfOk result (λ all. all.items ≡ genesis_validators state.now.preset state.now.validators state.now.balances) }
{
    let preset = state.preset();
    let mut all = Vec::with_capacity(alloc, state.validators_len() as usize)?;
    let mut balances = state.balance_list().iter();
    for validator in state.registry().iter() {
        let balance = next_balance(&mut balances);
        all.push(with_balance(preset, &validator, balance))?;
    }
    Ok(all)
}

/// The state behind its deposits: its validators as they are at genesis, and their root. Where memory is refused, the state is
/// as before.
#[tactic(auto, unfolding(spec_genesis::specs::InitializeBeaconStateFromEth1::with_activations))]
pub(crate) fn activate(alloc: Global, state: &mut State) -> Result<(), NoMemory>
    ensures { Becomes result state.old state.new (with_activations state.old) }
{
    // As many validators stand in the registry, which is within its limit.
    let _count = state.validators_len();
    let validators = genesis_validators(alloc, state)?;
    state.set_validators(validators)?;
    let root = state.validators_root();
    state.set_genesis_validators_root(root);
    Ok(())
}
