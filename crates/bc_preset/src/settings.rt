//! The lines of a configuration, one after the other. The bytes come from `configuration`, and the value of each key
//! goes back to it.

ghost use Rattle.std.specs.Prelude.{◌≡◌, ◌<◌, ◌≤◌, ◌+◌, ◌==◌, ◌∷◌, length, position, IfSome};
ghost use Rattle.std.specs.Str.Lines.{lines, strip_carriage_return};
ghost use Rattle.bc_preset.specs.Presets.{IsPreset};
ghost use Rattle.bc_preset.specs.Numbers.{parse_decimal};
ghost use Rattle.bc_preset.specs.Lines.{line_of};
ghost use Rattle.bc_preset.specs.Configs.{or_fault, preset_named, preset_of};
ghost use Rattle.bc_preset.specs.inside.OnePass.{nothing_set, is_set, with_number, set_key, after_line, after_lines};

use crate::faults::ConfigFault;
use crate::keys::Key;
use crate::lines::Line;
use crate::numbers::number;
use crate::presets::Preset;

/// The name of a preset.
#[derive(Clone, Copy)]
pub enum PresetName {
    Mainnet,
    Minimal,
}

impl PresetName {
    /// The preset with this name.
    #[tactic(auto, unfolding(crate::specs::Configs::preset_named))]
    pub fn named(text: &[u8]) -> Option<PresetName>
        ensures { result ≡ preset_named text.now }
    {
        if text == b"mainnet".as_slice() {
            Some(PresetName::Mainnet)
        } else if text == b"minimal".as_slice() {
            Some(PresetName::Minimal)
        } else {
            None
        }
    }

    /// The numbers of the preset.
    #[tactic(auto, unfolding(crate::specs::Configs::preset_of))]
    pub fn preset(self) -> Preset
        ensures exact { result ≡ preset_of self }
        ensures preset { IsPreset result }
    {
        match self {
            PresetName::Mainnet => Preset::mainnet(),
            PresetName::Minimal => Preset::minimal(),
        }
    }
}

/// The value of each key, where a line has set it.
#[derive(Clone, Copy)]
pub struct Settings {
    pub preset_base: Option<PresetName>,
    pub seconds_per_slot: Option<u64>,
    pub min_validator_withdrawability_delay: Option<u64>,
    pub shard_committee_period: Option<u64>,
    pub ejection_balance: Option<u64>,
    pub min_per_epoch_churn_limit: Option<u64>,
    pub churn_limit_quotient: Option<u64>,
    pub proposer_score_boost: Option<u64>,
}

fn number_in(line: u64, text: &[u8]) -> Result<u64, ConfigFault>
    ensures { result ≡ or_fault (ConfigFault.BadNumber line) (parse_decimal text.now) }
{
    number(text).ok_or(ConfigFault::BadNumber(line))
}

fn preset_in(line: u64, text: &[u8]) -> Result<PresetName, ConfigFault>
    ensures { result ≡ or_fault (ConfigFault.BadPreset line) (preset_named text.now) }
{
    PresetName::named(text).ok_or(ConfigFault::BadPreset(line))
}

impl Settings {
    /// No key is set.
    pub fn nothing() -> Settings
        ensures { result ≡ nothing_set }
    {
        Settings {
            preset_base: None,
            seconds_per_slot: None,
            min_validator_withdrawability_delay: None,
            shard_committee_period: None,
            ejection_balance: None,
            min_per_epoch_churn_limit: None,
            churn_limit_quotient: None,
            proposer_score_boost: None,
        }
    }

    #[tactic(auto, unfolding(crate::specs::inside::OnePass::is_set))]
    fn is_set(self, key: Key) -> bool
        ensures { result ≡ is_set self key }
    {
        match key {
            Key::PresetBase => self.preset_base.is_some(),
            Key::SecondsPerSlot => self.seconds_per_slot.is_some(),
            Key::MinValidatorWithdrawabilityDelay => self
                .min_validator_withdrawability_delay
                .is_some(),
            Key::ShardCommitteePeriod => self.shard_committee_period.is_some(),
            Key::EjectionBalance => self.ejection_balance.is_some(),
            Key::MinPerEpochChurnLimit => self.min_per_epoch_churn_limit.is_some(),
            Key::ChurnLimitQuotient => self.churn_limit_quotient.is_some(),
            Key::ProposerScoreBoost => self.proposer_score_boost.is_some(),
        }
    }

    /// Sets a key that has numbers to this one.
    #[tactic(auto, unfolding(crate::specs::inside::OnePass::with_number))]
    fn with_number(self, key: Key, value: u64) -> Settings
        ensures { result ≡ with_number self key value }
    {
        let mut settings = self;
        match key {
            Key::PresetBase => {}
            Key::SecondsPerSlot => settings.seconds_per_slot = Some(value),
            Key::MinValidatorWithdrawabilityDelay => {
                settings.min_validator_withdrawability_delay = Some(value);
            }
            Key::ShardCommitteePeriod => settings.shard_committee_period = Some(value),
            Key::EjectionBalance => settings.ejection_balance = Some(value),
            Key::MinPerEpochChurnLimit => settings.min_per_epoch_churn_limit = Some(value),
            Key::ChurnLimitQuotient => settings.churn_limit_quotient = Some(value),
            Key::ProposerScoreBoost => settings.proposer_score_boost = Some(value),
        }
        settings
    }

    /// Sets the key to the value that the line's text writes.
    #[tactic(auto, unfolding(crate::specs::inside::OnePass::set_key), using(crate::proofs::OnePass::set_number))]
    fn set_key(self, line: u64, key: Key, text: &[u8]) -> Result<Settings, ConfigFault>
        ensures { result ≡ set_key self line key text.now }
    {
        match key {
            Key::PresetBase => Ok(Settings {
                preset_base: Some(preset_in(line, text)?),
                ..self
            }),
            _ => Ok(self.with_number(key, number_in(line, text)?)),
        }
    }

    #[tactic(auto, unfolding(crate::specs::inside::OnePass::after_line))]
    fn after_line(self, number: u64, line: &[u8]) -> Result<Settings, ConfigFault>
        ensures { result ≡ after_line self number (line_of line.now) }
    {
        match Line::read(line) {
            Line::Skipped | Line::Other => Ok(self),
            Line::Faulty => Err(ConfigFault::BadLine(number)),
            Line::Setting(key, text) => {
                let is_set = self.is_set(key);
                if is_set {
                    Err(ConfigFault::Twice(number))
                } else {
                    self.set_key(number, key, text)
                }
            }
        }
    }
}

fn line_feed(bytes: &[u8]) -> Option<usize>
    ensures exact { result ≡ position (λ b. b == 10) bytes.now }
    ensures within { IfSome result (λ end. end < length bytes.now) }
{
    bytes.iter().position(|b| *b == b'\n')
}

fn without_carriage_return(line: &[u8]) -> &[u8]
    ensures { result.now ≡ strip_carriage_return line.now }
{
    match line {
        [front @ .., b'\r'] => front,
        _ => line,
    }
}

/// The first line, and what stands behind its line feed.
fn first_line(bytes: &[u8]) -> (&[u8], &[u8])
    requires { 0 < length bytes.now }
    ensures lines { lines bytes.now ≡ result.0.now ∷ lines result.1.now }
    ensures shorter { length result.1.now < length bytes.now }
{
    match line_feed(bytes) {
        None => bytes.split_at(bytes.len()),
        Some(end) => (without_carriage_return(&bytes[..end]), &bytes[end + 1..]),
    }
}

/// The settings behind all lines, or the first line's fault.
#[tactic(auto, unfolding(crate::specs::inside::OnePass::after_lines))]
pub fn settings_of(bytes: &[u8]) -> Result<Settings, ConfigFault>
    requires { length bytes.now ≤ 65536 }
    ensures { result ≡ after_lines nothing_set 1 (lines bytes.now) }
{
    let mut settings = Settings::nothing();
    let mut number = 1u64;
    let mut rest = bytes;
    while !rest.is_empty() {
        let (line, after) = first_line(rest);
        settings = settings.after_line(number, line)?;
        number += 1;
        rest = after;
    }
    Ok(settings)
}
