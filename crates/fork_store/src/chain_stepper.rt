//! The step from a kept state to the one behind a block, as the keeper of states takes it.

ghost use Rattle.std.specs.Prelude.{◌≡◌};
ghost use Rattle.fork_store.specs.ChainStep.{CanStep, chain_step};

use bc_preset::Config;
use bc_words::Stop;
use beacon_state::State;
use beacon_types::SignedBeaconBlock;
use state_keeper::Stepper;
use std::alloc::Global;
use std::marker::Model;
use transition::state_transition::state_transition;

/// Takes a state through a block by the state transition of a configuration, which is what contracts see of it.
#[derive(Drop)]
pub struct ChainStepper {
    config: Config,
}

impl Model for ChainStepper {
    ghost use Rattle.bc_preset.specs.declared.configuration.ConfigValues.{ConfigValues};

    ghost Value = { ConfigValues };

    ghost view = { λ stepper. stepper.config };

    ghost invariant = { λ stepper. Unit {0} };
}

impl ChainStepper {
    /// The steps of a configuration.
    pub fn new(config: &Config) -> ChainStepper
        ensures { result ≡ config.now }
    {
        ChainStepper { config: *config }
    }
}

impl Stepper for ChainStepper {
    type Block = SignedBeaconBlock;

    ghost can_step = { λ config state block. CanStep config state block };

    ghost plain_step = { λ config state block. chain_step config state block };

    #[tactic(auto, unfolding(crate::specs::ChainStep::chain_step))]
    fn step(&self, alloc: Global, state: &State, block: &SignedBeaconBlock) -> Result<State, Stop> {
        let step = state_transition(alloc, state, block, &self.config)?;
        Ok(step.state)
    }
}
