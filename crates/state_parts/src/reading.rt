//! Reading the fields of a state: bytes come from who reads one, and the plain state goes to its lists.

ghost use Rattle.std.specs.Prelude.{◌≡◌, ◌<◌, ◌^◌, length, map, take, drop};
ghost use Rattle.ssz_codec.specs.Layout.{fixed_length};
ghost use Rattle.ssz_codec.specs.Containers.{layout_of, all_read};
ghost use Rattle.ssz_codec.specs.Reads.{ReadsAs};
ghost use Rattle.bc_preset.specs.Presets.{IsPreset};
ghost use Rattle.spec_state.specs.States.{state_fields, state_codec};

use crate::groups::read_groups;
use bc_preset::Preset;
use spec_state::PlainState;
use ssz_codec::{Field, SszFault, cut};
use std::alloc::Global;

/// How the 21 fields stand in the fixed part.
#[tactic(auto, unfolding(spec_state::specs::States::state_fields), using(bc_preset::proofs::Bounds::preset_bounds))]
fn state_layout(preset: &Preset) -> [Field; 21]
    requires { IsPreset preset.now }
    ensures layout { result ≡ layout_of (state_fields preset.now) }
    ensures room { fixed_length result < 2 ^ 32 }
{
    let roots = Field::Fixed(preset.slots_per_historical_root as usize * 32);
    let mixes = Field::Fixed(preset.epochs_per_historical_vector as usize * 32);
    let slashings = Field::Fixed(preset.epochs_per_slashings_vector as usize * 8);
    [
        Field::Fixed(8),
        Field::Fixed(32),
        Field::Fixed(8),
        Field::Fixed(16),
        Field::Fixed(112),
        roots,
        roots,
        Field::Variable,
        Field::Fixed(72),
        Field::Variable,
        Field::Fixed(8),
        Field::Variable,
        Field::Variable,
        mixes,
        slashings,
        Field::Variable,
        Field::Variable,
        Field::Fixed(1),
        Field::Fixed(40),
        Field::Fixed(40),
        Field::Fixed(40),
    ]
}

/// Reads the fields of a state from its 21 parts.
fn read_fields(alloc: Global, preset: &Preset, parts: &[&[u8]]) -> Result<PlainState, SszFault>
    requires preset { IsPreset preset.now }
    requires count { length parts.now ≡ 21 }
    ensures { ReadsAs result ((state_fields preset.now).deserialize all_read (map (λ part. part.now) parts.now)) }
{
    let (clock, parts) = parts.split_at(5);
    let (history, parts) = parts.split_at(3);
    let (eth1, parts) = parts.split_at(3);
    let (registry, parts) = parts.split_at(4);
    let (pending, finality) = parts.split_at(2);
    read_groups(
        alloc, preset, clock, history, eth1, registry, pending, finality,
    )
}

/// Reads the plain state from exactly the bytes that are its writing (simple-serialize.md, "Deserialization").
#[tactic(auto, unfolding(spec_state::specs::States::state_codec))]
pub fn read_plain(alloc: Global, preset: &Preset, bytes: &[u8]) -> Result<PlainState, SszFault>
    requires { IsPreset preset.now }
    ensures { ReadsAs result ((state_codec preset.now).deserialize bytes.now) }
{
    let layout = state_layout(preset);
    let mut parts = [bytes; 21];
    cut(bytes, &layout, &mut parts)?;
    read_fields(alloc, preset, &parts)
}
