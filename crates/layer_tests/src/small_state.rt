//! A state for tests: every balance is the same, and each byte of a mix is its index.

ghost use Rattle.std.specs.Prelude.{◌≡◌, ◌%◌, replicate};
ghost use Rattle.bc_preset.specs.Presets.{IsPreset};

use bc_preset::Preset;
use committees::Lookup;
use hash_tree::Root;
use std::marker::Model;

#[derive(Drop)]
pub struct SmallState {
    preset: Preset,
    registry: u64,
    balance: u64,
}

impl Model for SmallState {
    ghost use Rattle.std.specs.Prelude.{ℕ};
    ghost use Rattle.bc_preset.specs.declared.presets.Preset.{Preset};
    ghost use Rattle.bc_preset.specs.Presets.{IsPreset};

    ghost Value = { Preset × ℕ × ℕ };

    ghost view = { λ s. (s.preset, s.registry, s.balance) };

    ghost invariant = { λ s. IsPreset s.preset };
}

impl SmallState {
    pub fn new(preset: Preset, registry: u64, balance: u64) -> SmallState
        requires { IsPreset preset }
        ensures { result.1 ≡ registry }
    {
        SmallState {
            preset,
            registry,
            balance,
        }
    }
}

impl Lookup for SmallState {
    ghost preset_of = { λ s. s.0 };

    ghost mix_at = { λ s epoch. replicate 32 (epoch % s.0.epochs_per_historical_vector % 256) };

    ghost effective_at = { λ s _. s.2 };

    ghost registry_of = { λ s. s.1 };

    fn preset(&self) -> &Preset {
        &self.preset
    }

    fn mix(&self, epoch: u64) -> Root {
        self.preset.bounds();
        let index = epoch % self.preset.epochs_per_historical_vector;
        [(index % 256) as u8; 32]
    }

    fn registry(&self) -> u64 {
        self.registry
    }

    fn effective(&self, _index: u64) -> u64 {
        self.balance
    }
}
