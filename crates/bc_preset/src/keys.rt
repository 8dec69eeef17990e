//! The keys of a configuration that are used here, with their names and ranges.

ghost use Rattle.std.specs.Prelude.{◌≡◌};
ghost use Rattle.bc_preset.specs.Keys.{name_of, expected_of, key_named, allows};

/// A key of the configuration, in the order of the table. Every other key of a file is passed over.
#[derive(Clone, Copy, Debug, PartialEq, Eq)]
pub enum Key {
    /// The name of the preset that the configuration stands on.
    PresetBase,
    /// The seconds of a slot.
    SecondsPerSlot,
    /// Epochs from a validator's exit until it may withdraw.
    MinValidatorWithdrawabilityDelay,
    /// Epochs that a validator is active before it may exit.
    ShardCommitteePeriod,
    /// The effective balance, in Gwei, at or below which a validator is ejected.
    EjectionBalance,
    /// The least churn limit of an epoch.
    MinPerEpochChurnLimit,
    /// Active validators for each one of the churn limit.
    ChurnLimitQuotient,
    /// The proposer's boost, in hundredths of a committee's weight.
    ProposerScoreBoost,
}

impl Key {
    /// The key as a configuration file spells it.
    #[tactic(auto, unfolding(crate::specs::Keys::name_of))]
    pub fn name(self) -> &'static str
        ensures { result.now ≡ name_of self }
    {
        match self {
            Key::PresetBase => "PRESET_BASE",
            Key::SecondsPerSlot => "SECONDS_PER_SLOT",
            Key::MinValidatorWithdrawabilityDelay => "MIN_VALIDATOR_WITHDRAWABILITY_DELAY",
            Key::ShardCommitteePeriod => "SHARD_COMMITTEE_PERIOD",
            Key::EjectionBalance => "EJECTION_BALANCE",
            Key::MinPerEpochChurnLimit => "MIN_PER_EPOCH_CHURN_LIMIT",
            Key::ChurnLimitQuotient => "CHURN_LIMIT_QUOTIENT",
            Key::ProposerScoreBoost => "PROPOSER_SCORE_BOOST",
        }
    }

    /// What stands behind the key in a configuration, in words for people.
    #[tactic(auto, unfolding(crate::specs::Keys::expected_of))]
    pub fn expected(self) -> &'static str
        ensures { result.now ≡ expected_of self }
    {
        match self {
            Key::PresetBase => "mainnet or minimal",
            Key::SecondsPerSlot => "1 to 4294967295",
            Key::MinValidatorWithdrawabilityDelay => "0 to 4294967295",
            Key::ShardCommitteePeriod => "0 to 4294967295",
            Key::EjectionBalance => "0 to 18446744073709551615",
            Key::MinPerEpochChurnLimit => "0 to 4294967295",
            Key::ChurnLimitQuotient => "1 to 4294967295",
            Key::ProposerScoreBoost => "0 to 10000",
        }
    }

    /// Whether the number is in the key's range. The preset's name is no number, and has no range.
    #[tactic(auto, unfolding(crate::specs::Keys::allows))]
    pub fn allows(self, value: u64) -> bool
        ensures { result ≡ allows self value }
    {
        match self {
            Key::PresetBase | Key::EjectionBalance => true,
            Key::SecondsPerSlot | Key::ChurnLimitQuotient => 1 <= value && value < 1 << 32,
            Key::MinValidatorWithdrawabilityDelay
            | Key::ShardCommitteePeriod
            | Key::MinPerEpochChurnLimit => value < 1 << 32,
            Key::ProposerScoreBoost => value <= 10_000,
        }
    }

    /// The key with this name, if the name is one of the eight.
    #[tactic(auto, unfolding(crate::specs::Keys::key_named))]
    pub fn named(text: &[u8]) -> Option<Key>
        ensures { result ≡ key_named text.now }
    {
        let keys = [
            Key::PresetBase,
            Key::SecondsPerSlot,
            Key::MinValidatorWithdrawabilityDelay,
            Key::ShardCommitteePeriod,
            Key::EjectionBalance,
            Key::MinPerEpochChurnLimit,
            Key::ChurnLimitQuotient,
            Key::ProposerScoreBoost,
        ];
        for key in keys {
            if key.name().as_bytes() == text {
                return Some(key);
            }
        }
        None
    }
}
