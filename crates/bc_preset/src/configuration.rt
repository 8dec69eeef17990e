//! The configuration of a network, read from the bytes of its file.

ghost use Rattle.std.specs.Prelude.{◌≡◌, ◌<◌, ◌≤◌, ◌^◌, IfOk};
ghost use Rattle.bc_preset.specs.Presets.{IsPreset};
ghost use Rattle.bc_preset.specs.laws.Bounds.{HasPresetBounds};

use crate::faults::ConfigFault;
use crate::keys::Key;
use crate::presets::Preset;
use crate::settings::{Settings, settings_of};
use std::marker::Model;

/// The longest file of a configuration, in bytes.
pub const MAX_CONFIG_LEN: usize = 65_536;

/// The values of a configuration, one for each key of the table (beacon-chain.md and fork-choice.md,
/// "Configuration").
#[derive(Clone, Copy)]
pub struct ConfigValues {
    /// The preset that PRESET_BASE names.
    pub preset: Preset,
    /// SECONDS_PER_SLOT.
    pub seconds_per_slot: u64,
    /// MIN_VALIDATOR_WITHDRAWABILITY_DELAY, in epochs.
    pub min_validator_withdrawability_delay: u64,
    /// SHARD_COMMITTEE_PERIOD, in epochs.
    pub shard_committee_period: u64,
    /// EJECTION_BALANCE, in Gwei.
    pub ejection_balance: u64,
    /// MIN_PER_EPOCH_CHURN_LIMIT, in validators.
    pub min_per_epoch_churn_limit: u64,
    /// CHURN_LIMIT_QUOTIENT.
    pub churn_limit_quotient: u64,
    /// PROPOSER_SCORE_BOOST, in hundredths.
    pub proposer_score_boost: u64,
}

/// A configuration: a preset, and a value in its range for each other key. Contracts see its values.
#[derive(Clone, Copy)]
pub struct Config {
    values: ConfigValues,
}

impl Model for Config {
    ghost use Rattle.bc_preset.specs.declared.configuration.ConfigValues.{ConfigValues};
    ghost use Rattle.bc_preset.specs.Configs.{IsConfig};

    ghost Value = { ConfigValues };

    ghost view = { λ c. c.values };

    ghost inverse = { λ values. record { values = values } };

    ghost invariant = { λ c. IsConfig c.values };
}

impl Settings {
    ghost use Rattle.bc_preset.specs.inside.OnePass.{all_set};

    /// The value of each key, or the first key of the table that has none.
    #[tactic(auto, unfolding(crate::specs::inside::OnePass::all_set))]
    fn all_set(&self) -> Result<ConfigValues, ConfigFault>
        ensures exact { result ≡ all_set self.now }
        ensures preset { IfOk result (λ v. IsPreset v.preset) }
    {
        let Some(name) = self.preset_base else {
            return Err(ConfigFault::Missing(Key::PresetBase));
        };
        let Some(seconds_per_slot) = self.seconds_per_slot else {
            return Err(ConfigFault::Missing(Key::SecondsPerSlot));
        };
        let Some(min_validator_withdrawability_delay) = self.min_validator_withdrawability_delay
        else {
            return Err(ConfigFault::Missing(Key::MinValidatorWithdrawabilityDelay));
        };
        let Some(shard_committee_period) = self.shard_committee_period else {
            return Err(ConfigFault::Missing(Key::ShardCommitteePeriod));
        };
        let Some(ejection_balance) = self.ejection_balance else {
            return Err(ConfigFault::Missing(Key::EjectionBalance));
        };
        let Some(min_per_epoch_churn_limit) = self.min_per_epoch_churn_limit else {
            return Err(ConfigFault::Missing(Key::MinPerEpochChurnLimit));
        };
        let Some(churn_limit_quotient) = self.churn_limit_quotient else {
            return Err(ConfigFault::Missing(Key::ChurnLimitQuotient));
        };
        let Some(proposer_score_boost) = self.proposer_score_boost else {
            return Err(ConfigFault::Missing(Key::ProposerScoreBoost));
        };
        Ok(ConfigValues {
            preset: name.preset(),
            seconds_per_slot,
            min_validator_withdrawability_delay,
            shard_committee_period,
            ejection_balance,
            min_per_epoch_churn_limit,
            churn_limit_quotient,
            proposer_score_boost,
        })
    }
}

impl ConfigValues {
    ghost use Rattle.bc_preset.specs.Configs.{all_in_range};

    /// The configuration with these values, or the first key of the table whose value is out of its range.
    #[tactic(auto, unfolding(crate::specs::Configs::all_in_range, crate::specs::Configs::in_range))]
    fn all_in_range(self) -> Result<Config, ConfigFault>
        requires { IsPreset self.preset }
        ensures { result ≡ all_in_range self }
    {
        if !Key::SecondsPerSlot.allows(self.seconds_per_slot) {
            return Err(ConfigFault::OutOfRange(Key::SecondsPerSlot));
        }
        if !Key::MinValidatorWithdrawabilityDelay.allows(self.min_validator_withdrawability_delay) {
            return Err(ConfigFault::OutOfRange(Key::MinValidatorWithdrawabilityDelay));
        }
        if !Key::ShardCommitteePeriod.allows(self.shard_committee_period) {
            return Err(ConfigFault::OutOfRange(Key::ShardCommitteePeriod));
        }
        if !Key::EjectionBalance.allows(self.ejection_balance) {
            return Err(ConfigFault::OutOfRange(Key::EjectionBalance));
        }
        if !Key::MinPerEpochChurnLimit.allows(self.min_per_epoch_churn_limit) {
            return Err(ConfigFault::OutOfRange(Key::MinPerEpochChurnLimit));
        }
        if !Key::ChurnLimitQuotient.allows(self.churn_limit_quotient) {
            return Err(ConfigFault::OutOfRange(Key::ChurnLimitQuotient));
        }
        if !Key::ProposerScoreBoost.allows(self.proposer_score_boost) {
            return Err(ConfigFault::OutOfRange(Key::ProposerScoreBoost));
        }
        Ok(Config { values: self })
    }
}

impl Config {
    ghost use Rattle.bc_preset.specs.Configs.{IsConfig};
    ghost use Rattle.bc_preset.specs.Configs.{config_of};
    ghost use Rattle.bc_preset.specs.inside.OnePass.{one_pass};

    /// The configuration that the bytes write, or the first thing that is wrong with them.
    #[tactic(auto, using(crate::proofs::OnePass::one_pass_is))]
    pub fn read(bytes: &[u8]) -> Result<Config, ConfigFault>
        ensures { result ≡ config_of bytes.now }
    {
        Config::read_in_one_pass(bytes)
    }

    #[tactic(auto, unfolding(crate::specs::inside::OnePass::one_pass))]
    fn read_in_one_pass(bytes: &[u8]) -> Result<Config, ConfigFault>
        ensures { result ≡ one_pass bytes.now }
    {
        let too_long = bytes.len() > MAX_CONFIG_LEN;
        if too_long {
            return Err(ConfigFault::TooLong);
        }
        settings_of(bytes)?.all_set()?.all_in_range()
    }

    /// The preset that the configuration stands on.
    pub fn preset(&self) -> &Preset
        ensures exact { result.now ≡ self.now.preset }
        ensures preset { IsPreset self.now.preset }
        ensures bounds { HasPresetBounds self.now.preset }
    {
        let preset = &self.values.preset;
        preset.bounds();
        preset
    }

    /// The seconds of a slot.
    pub fn seconds_per_slot(&self) -> u64
        ensures exact { result ≡ self.now.seconds_per_slot }
        ensures least { 1 ≤ result }
        ensures most { result < 2 ^ 32 }
    {
        self.values.seconds_per_slot
    }

    /// Epochs from a validator's exit until it may withdraw.
    pub fn min_validator_withdrawability_delay(&self) -> u64
        ensures exact { result ≡ self.now.min_validator_withdrawability_delay }
        ensures most { result < 2 ^ 32 }
    {
        self.values.min_validator_withdrawability_delay
    }

    /// Epochs that a validator is active before it may exit.
    pub fn shard_committee_period(&self) -> u64
        ensures exact { result ≡ self.now.shard_committee_period }
        ensures most { result < 2 ^ 32 }
    {
        self.values.shard_committee_period
    }

    /// The effective balance, in Gwei, at or below which a validator is ejected.
    pub fn ejection_balance(&self) -> u64
        ensures exact { result ≡ self.now.ejection_balance }
    {
        self.values.ejection_balance
    }

    /// The least churn limit of an epoch.
    pub fn min_per_epoch_churn_limit(&self) -> u64
        ensures exact { result ≡ self.now.min_per_epoch_churn_limit }
        ensures most { result < 2 ^ 32 }
    {
        self.values.min_per_epoch_churn_limit
    }

    /// Active validators for each one of the churn limit.
    pub fn churn_limit_quotient(&self) -> u64
        ensures exact { result ≡ self.now.churn_limit_quotient }
        ensures least { 1 ≤ result }
        ensures most { result < 2 ^ 32 }
    {
        self.values.churn_limit_quotient
    }

    /// The proposer's boost, in hundredths of a committee's weight.
    pub fn proposer_score_boost(&self) -> u64
        ensures exact { result ≡ self.now.proposer_score_boost }
        ensures most { result ≤ 10000 }
    {
        self.values.proposer_score_boost
    }

    /// The law that every configuration has a preset, and its values in their ranges. It does nothing when it runs.
    pub fn in_range(&self)
        ensures { IsConfig self.now }
    {
        let _ = &self.values;
    }
}
