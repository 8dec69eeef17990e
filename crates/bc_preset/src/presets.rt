//! The two presets of phase 0: the numbers that a network's preset fixes.
//!
//! They come from the published files `presets/mainnet/phase0.yaml` and `presets/minimal/phase0.yaml`, and go to
//! every function that counts slots, epochs, committees or list limits.

ghost use Rattle.std.specs.Prelude.{◌≡◌};

/// The numbers of a preset (phase 0 presets), each under its published name.
///
/// It is `Copy` and 256 bytes long: pass it by `&`, and read its fields there.
#[derive(Clone, Copy)]
pub struct Preset {
    /// The most committees of one slot.
    pub max_committees_per_slot: u64,
    /// How many members a committee is to have.
    pub target_committee_size: u64,
    /// The limit of a committee's members.
    pub max_validators_per_committee: u64,
    /// Rounds of the shuffle.
    pub shuffle_round_count: u64,
    /// What an increment is divided by for the steps of the effective balance.
    pub hysteresis_quotient: u64,
    /// Steps that a balance falls before the effective balance follows.
    pub hysteresis_downward_multiplier: u64,
    /// Steps that a balance rises before the effective balance follows.
    pub hysteresis_upward_multiplier: u64,
    /// Slots of an epoch in which the store's justified checkpoint may move to another branch.
    pub safe_slots_to_update_justified: u64,
    /// The most that a validator counts for, in Gwei.
    pub max_effective_balance: u64,
    /// The unit of effective balances, in Gwei.
    pub effective_balance_increment: u64,
    /// Slots before a block may take an attestation.
    pub min_attestation_inclusion_delay: u64,
    /// Slots of an epoch.
    pub slots_per_epoch: u64,
    /// Epochs from a seed's mix to the epoch that uses it.
    pub min_seed_lookahead: u64,
    /// Epochs from an activation or exit to its effect.
    pub max_seed_lookahead: u64,
    /// Epochs of a period of eth1 votes.
    pub epochs_per_eth1_voting_period: u64,
    /// Length of the vectors of block roots and state roots.
    pub slots_per_historical_root: u64,
    /// Epochs without finality before the leak.
    pub min_epochs_to_inactivity_penalty: u64,
    /// Length of the vector of randao mixes.
    pub epochs_per_historical_vector: u64,
    /// Length of the vector of slashed balances.
    pub epochs_per_slashings_vector: u64,
    /// Limit of the list of historical roots: 2^24.
    pub historical_roots_limit: u64,
    /// Limit of the lists of validators and balances: 2^40.
    pub validator_registry_limit: u64,
    /// Factor of the base reward.
    pub base_reward_factor: u64,
    /// The whistleblower's share of a slashed balance.
    pub whistleblower_reward_quotient: u64,
    /// The proposer's share of a base reward.
    pub proposer_reward_quotient: u64,
    /// Divisor of the leak's penalty: 2^26 and 2^25.
    pub inactivity_penalty_quotient: u64,
    /// Divisor of the first penalty of a slashing.
    pub min_slashing_penalty_quotient: u64,
    /// Factor of the later penalty of a slashing.
    pub proportional_slashing_multiplier: u64,
    /// Most proposer slashings of a block.
    pub max_proposer_slashings: u64,
    /// Most attester slashings of a block.
    pub max_attester_slashings: u64,
    /// Most attestations of a block.
    pub max_attestations: u64,
    /// Most deposits of a block.
    pub max_deposits: u64,
    /// Most voluntary exits of a block.
    pub max_voluntary_exits: u64,
}

impl Preset {
    ghost use Rattle.bc_preset.specs.Presets.{mainnet, minimal, IsPreset};
    ghost use Rattle.bc_preset.specs.laws.Bounds.{HasPresetBounds};

    /// The preset of the main network (`presets/mainnet/phase0.yaml`).
    #[tactic(auto, unfolding(crate::specs::Presets::IsPreset), using(crate::proofs::Bounds::mainnet_bounds))]
    pub fn mainnet() -> Preset
        ensures exact { result ≡ mainnet }
        ensures preset { IsPreset result }
        ensures bounds { HasPresetBounds result }
    {
        Preset {
            max_committees_per_slot: 64,
            target_committee_size: 128,
            max_validators_per_committee: 2048,
            shuffle_round_count: 90,
            hysteresis_quotient: 4,
            hysteresis_downward_multiplier: 1,
            hysteresis_upward_multiplier: 5,
            safe_slots_to_update_justified: 8,
            max_effective_balance: 32_000_000_000,
            effective_balance_increment: 1_000_000_000,
            min_attestation_inclusion_delay: 1,
            slots_per_epoch: 32,
            min_seed_lookahead: 1,
            max_seed_lookahead: 4,
            epochs_per_eth1_voting_period: 64,
            slots_per_historical_root: 8192,
            min_epochs_to_inactivity_penalty: 4,
            epochs_per_historical_vector: 65536,
            epochs_per_slashings_vector: 8192,
            historical_roots_limit: 16_777_216,
            validator_registry_limit: 1_099_511_627_776,
            base_reward_factor: 64,
            whistleblower_reward_quotient: 512,
            proposer_reward_quotient: 8,
            inactivity_penalty_quotient: 67_108_864,
            min_slashing_penalty_quotient: 128,
            proportional_slashing_multiplier: 1,
            max_proposer_slashings: 16,
            max_attester_slashings: 2,
            max_attestations: 128,
            max_deposits: 16,
            max_voluntary_exits: 16,
        }
    }

    /// The preset of small test networks (`presets/minimal/phase0.yaml`).
    #[tactic(auto, unfolding(crate::specs::Presets::IsPreset), using(crate::proofs::Bounds::minimal_bounds))]
    pub fn minimal() -> Preset
        ensures exact { result ≡ minimal }
        ensures preset { IsPreset result }
        ensures bounds { HasPresetBounds result }
    {
        Preset {
            max_committees_per_slot: 4,
            target_committee_size: 4,
            max_validators_per_committee: 2048,
            shuffle_round_count: 10,
            hysteresis_quotient: 4,
            hysteresis_downward_multiplier: 1,
            hysteresis_upward_multiplier: 5,
            safe_slots_to_update_justified: 2,
            max_effective_balance: 32_000_000_000,
            effective_balance_increment: 1_000_000_000,
            min_attestation_inclusion_delay: 1,
            slots_per_epoch: 8,
            min_seed_lookahead: 1,
            max_seed_lookahead: 4,
            epochs_per_eth1_voting_period: 4,
            slots_per_historical_root: 64,
            min_epochs_to_inactivity_penalty: 4,
            epochs_per_historical_vector: 64,
            epochs_per_slashings_vector: 64,
            historical_roots_limit: 16_777_216,
            validator_registry_limit: 1_099_511_627_776,
            base_reward_factor: 64,
            whistleblower_reward_quotient: 512,
            proposer_reward_quotient: 8,
            inactivity_penalty_quotient: 33_554_432,
            min_slashing_penalty_quotient: 64,
            proportional_slashing_multiplier: 2,
            max_proposer_slashings: 16,
            max_attester_slashings: 2,
            max_attestations: 128,
            max_deposits: 16,
            max_voluntary_exits: 16,
        }
    }

    /// The law that each number of a preset lies between those of the two presets. It does nothing when it runs.
    #[tactic(auto, using(crate::proofs::Bounds::preset_bounds))]
    pub fn bounds(&self)
        requires { IsPreset self.now }
        ensures { HasPresetBounds self.now }
    {}
}
