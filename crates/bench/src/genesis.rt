//! Genesis states of either preset, and the configurations that go with them: validators that are active from the beginning,
//! and nothing else.

ghost use Rattle.std.specs.Prelude.{◌≡◌, IfOk};
ghost use Rattle.bc_preset.specs.Presets.{IsPreset};

use crate::states::{Layout, Shape, state_bytes};
use anyhow::Result;
use bc_preset::{Config, Preset};
use beacon_state::State;
use ssz_codec::SszFault;
use std::alloc::Global;

/// A configuration of the minimal preset.
const MINIMAL_CONFIG: &[u8] =
    b"PRESET_BASE: 'minimal'\nSECONDS_PER_SLOT: 6\nMIN_VALIDATOR_WITHDRAWABILITY_DELAY: 256\nSHARD_COMMITTEE_PERIOD: 64\nEJECTION_BALANCE: 16000000000\nMIN_PER_EPOCH_CHURN_LIMIT: 4\nCHURN_LIMIT_QUOTIENT: 32\nPROPOSER_SCORE_BOOST: 40\n";

/// A network: what its genesis state looks like, and its configuration.
#[derive(Clone, Copy)]
pub struct Network {
    /// How many validators it has.
    validators: u32,
    /// How its preset lays out a state.
    layout: Layout,
    /// The configuration.
    config: &'static [u8],
}

impl Network {
    /// The minimal preset with so many validators.
    pub fn minimal(validators: u32) -> Network {
        Network {
            validators,
            layout: Layout::minimal(),
            config: MINIMAL_CONFIG,
        }
    }

    /// The mainnet preset with so many validators.
    pub fn mainnet(validators: u32) -> Network {
        Network {
            validators,
            layout: Layout::mainnet(),
            config: crate::states::CONFIG,
        }
    }

    /// The file of its configuration.
    pub fn config(&self) -> &'static [u8] {
        self.config
    }

    /// The file of its genesis state.
    pub fn genesis_bytes(&self, alloc: Global) -> Result<Vec<u8>> {
        Ok(state_bytes(alloc, self.layout, &Shape::at_genesis(self.validators))?)
    }
}

/// A genesis state, and the configuration that goes with it.
#[derive(Drop)]
pub struct Genesis {
    /// The configuration.
    pub config: Config,
    /// The state.
    pub state: State,
}

/// Reads a state of the preset.
#[tactic(auto, using(spec_state::proofs::Limits::within_preset))]
fn read_state(alloc: Global, preset: &Preset, bytes: &[u8]) -> Result<State, SszFault>
    requires { IsPreset preset.now }
    ensures { IfOk result (λ state. state.preset ≡ preset.now) }
{
    State::read(alloc, preset, bytes)
}

/// Makes and reads the genesis state of the network, with its configuration.
pub fn read_genesis(alloc: Global, network: &Network) -> Result<Genesis>
    ensures { IfOk result (λ genesis. genesis.state.preset ≡ genesis.config.preset) }
{
    let config = Config::read(network.config)?;
    let shape = Shape::at_genesis(network.validators);
    let bytes = state_bytes(alloc, network.layout, &shape)?;
    match read_state(alloc, config.preset(), &bytes) {
        Ok(state) => Ok(Genesis { config, state }),
        Err(fault) => Err(fault.into()),
    }
}
