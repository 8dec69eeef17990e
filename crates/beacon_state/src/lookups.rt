//! What seeds and proposers read of a state.

ghost use Rattle.std.specs.Prelude.{◌≡◌, length};
ghost use Rattle.spec_state.specs.Accessors.{get_randao_mix};
ghost use Rattle.spec_state.specs.Misc.{effective_balance};

use crate::state::State;
use bc_preset::Preset;
use committees::Lookup;
use hash_tree::Root;

impl Lookup for State {
    ghost preset_of = { λ state. state.preset };

    ghost mix_at = { get_randao_mix };

    ghost effective_at = { λ state. effective_balance state.validators };

    ghost registry_of = { λ state. length state.validators };

    fn preset(&self) -> &Preset {
        State::preset(self)
    }

    #[tactic(auto, unfolding(spec_state::specs::Accessors::get_randao_mix))]
    fn mix(&self, epoch: u64) -> Root {
        self.limits();
        let preset = State::preset(self);
        preset.bounds();
        let index = epoch % preset.epochs_per_historical_vector;
        match self.randao_mixes_at(index) {
            Some(mix) => *mix,
            None => unreachable!(),
        }
    }

    fn registry(&self) -> u64 {
        self.validators_len()
    }

    #[tactic(auto, using(crate::proofs::Balances::effective_balance_at))]
    fn effective(&self, index: u64) -> u64 {
        let Some(validator) = self.validators_at(index) else {
            unreachable!()
        };
        validator.effective_balance()
    }
}
