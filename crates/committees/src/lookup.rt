//! What seeds and proposers need to know of a state. The state's own crate implements it.

ghost use Rattle.std.specs.Prelude.{◌≡◌, ℕ, List, ◌<◌};
ghost use Rattle.bc_preset.specs.declared.presets.Preset.{Preset};
ghost use Rattle.bc_preset.specs.Presets.{IsPreset};

use bc_preset::Preset;
use hash_tree::Root;

/// A state, as far as seeds and proposers look at it.
pub trait Lookup {
    ghost preset_of: { Self → Preset };

    ghost mix_at: { Self → ℕ → List ℕ };

    ghost effective_at: { Self → ℕ → ℕ };

    ghost registry_of: { Self → ℕ };

    /// The preset of the state.
    fn preset(&self) -> &Preset
        ensures exact { result.now ≡ preset_of self.now }
        ensures preset { IsPreset result.now };

    /// The randao mix of an epoch (beacon-chain.md, `get_randao_mix`).
    fn mix(&self, epoch: u64) -> Root
        ensures { result ≡ mix_at self.now epoch };

    /// The number of validators in the registry.
    fn registry(&self) -> u64
        ensures { result ≡ registry_of self.now };

    /// The effective balance of a validator of the registry, in Gwei.
    fn effective(&self, index: u64) -> u64
        requires { index < registry_of self.now }
        ensures { result ≡ effective_at self.now index };
}
