//! Writing a state: its fields come from the state, and the bytes go to files.

ghost use Rattle.std.specs.Prelude.{◌≡◌, ◌≤◌, ◌^◌, length, map, replicate, Some, OnOk, IfOk};
ghost use Rattle.std.specs.List.{flat_map};
ghost use Rattle.ssz_codec.specs.declared.layout.Field.TheVariants.{Variable};
ghost use Rattle.ssz_codec.specs.Basic.{uint64};
ghost use Rattle.ssz_codec.specs.Layout.{fixed_length, joined};
ghost use Rattle.ssz_codec.specs.Containers.{layout_of, parts_of};
ghost use Rattle.ssz_codec.specs.inside.Halves.{with_fixed, with_variable, with_parts};
ghost use Rattle.beacon_types.specs.Containers.{pending_attestation_codec, validator_codec};
ghost use Rattle.spec_state.specs.States.{state_fields, state_codec};
ghost use Rattle.state_parts.specs.inside.Groups.{clock_fields, history_fields, eth1_fields, registry_fields, pending_fields, finality_fields, clock_of, history_of, eth1_of, registry_of, pending_of, finality_of};
ghost use Rattle.spec_state.specs.Limits.{IsState};
ghost use Rattle.bc_preset.specs.Presets.{IsPreset};
ghost use Rattle.bc_preset.specs.declared.presets.Preset.{Preset};
ghost use Rattle.spec_state.specs.declared.plain.PlainState.{PlainState};
ghost use Rattle.spec_state.specs.Writing.{HasWriting};

use crate::state::State;
use bc_preset::Preset;
use bc_words::NoMemory;
use beacon_types::PendingAttestation;
use ssz_codec::{FieldRow, PartsWriter, pieces_of};
use state_parts::{InRange, Values};
use std::alloc::Global;

#[tactic(auto, unfolding(state_parts::specs::inside::Groups::clock_fields))]
fn add_clock(s: &State, out: &mut PartsWriter) -> Result<(), NoMemory>
    ensures { OnOk result (out.new ≡ with_parts (layout_of clock_fields) (parts_of clock_fields (clock_of s.now)) out.old) }
{
    let fields = pieces_of!(
        &s.genesis_time(),
        &s.genesis_validators_root(),
        &s.slot(),
        &s.fork(),
        &s.latest_block_header()
    );
    fields.add_to(out)
}

/// A vector of the state.
fn add_vector<T: InRange>(
    alloc: Global,
    values: &Values<T>,
    out: &mut PartsWriter,
) -> Result<(), NoMemory>
    ensures { OnOk result (out.new ≡ with_fixed (flat_map T.Ssz.codec.serialize values.now.items) out.old) }
{
    match values.copied(alloc) {
        Ok(copies) => out.add_vector(&copies),
        Err(refused) => Err(refused),
    }
}

/// A list of the state, of values of fixed size.
fn add_items<T: InRange>(
    alloc: Global,
    values: &Values<T>,
    out: &mut PartsWriter,
) -> Result<(), NoMemory>
    ensures { OnOk result (out.new ≡ with_variable (flat_map T.Ssz.codec.serialize values.now.items) out.old) }
{
    match values.copied(alloc) {
        Ok(copies) => out.add_items(&copies),
        Err(refused) => Err(refused),
    }
}

/// The slashed balances.
fn add_slashings(alloc: Global, s: &State, out: &mut PartsWriter) -> Result<(), NoMemory>
    ensures { OnOk result (out.new ≡ with_fixed (flat_map uint64.serialize s.now.slashings) out.old) }
{
    match s.slashings().copied(alloc) {
        Ok(copies) => out.add_vector(&copies),
        Err(refused) => Err(refused),
    }
}

/// The registry.
fn add_validators(alloc: Global, s: &State, out: &mut PartsWriter) -> Result<(), NoMemory>
    ensures { OnOk result (out.new ≡ with_variable (flat_map validator_codec.serialize s.now.validators) out.old) }
{
    match s.validators().copied(alloc) {
        Ok(copies) => out.add_items(&copies),
        Err(refused) => Err(refused),
    }
}

/// The balances.
fn add_balances(alloc: Global, s: &State, out: &mut PartsWriter) -> Result<(), NoMemory>
    ensures { OnOk result (out.new ≡ with_variable (flat_map uint64.serialize s.now.balances) out.old) }
{
    match s.balances().copied(alloc) {
        Ok(copies) => out.add_items(&copies),
        Err(refused) => Err(refused),
    }
}

#[tactic(auto, unfolding(state_parts::specs::inside::Groups::history_fields))]
fn add_history(alloc: Global, s: &State, out: &mut PartsWriter) -> Result<(), NoMemory>
    ensures { OnOk result (out.new ≡ with_parts (layout_of (history_fields s.now.preset)) (parts_of (history_fields s.now.preset) (history_of s.now)) out.old) }
{
    add_vector(alloc, s.block_roots(), out)?;
    add_vector(alloc, s.state_roots(), out)?;
    add_items(alloc, s.historical_roots(), out)
}

#[tactic(auto, unfolding(state_parts::specs::inside::Groups::eth1_fields))]
fn add_eth1(alloc: Global, s: &State, out: &mut PartsWriter) -> Result<(), NoMemory>
    ensures { OnOk result (out.new ≡ with_parts (layout_of (eth1_fields s.now.preset)) (parts_of (eth1_fields s.now.preset) (eth1_of s.now)) out.old) }
{
    out.add(&s.eth1_data())?;
    add_items(alloc, s.eth1_data_votes(), out)?;
    out.add(&s.eth1_deposit_index())
}

#[tactic(auto, unfolding(state_parts::specs::inside::Groups::registry_fields))]
fn add_registry(alloc: Global, s: &State, out: &mut PartsWriter) -> Result<(), NoMemory>
    ensures { OnOk result (out.new ≡ with_parts (layout_of (registry_fields s.now.preset)) (parts_of (registry_fields s.now.preset) (registry_of s.now)) out.old) }
{
    add_validators(alloc, s, out)?;
    add_balances(alloc, s, out)?;
    add_vector(alloc, s.randao_mixes(), out)?;
    add_slashings(alloc, s, out)
}

/// A list of pending attestations.
fn add_attestations(
    alloc: Global,
    values: &Values<PendingAttestation>,
    out: &mut PartsWriter,
) -> Result<(), NoMemory>
    requires { length values.now.items ≤ 2 ^ 40 }
    ensures { OnOk result (out.new ≡ with_variable (joined (replicate (length values.now.items) Variable) (map pending_attestation_codec.serialize values.now.items)) out.old) }
{
    match values.copied(alloc) {
        Ok(copies) => out.add_list(&copies),
        Err(refused) => Err(refused),
    }
}

#[tactic(auto, unfolding(state_parts::specs::inside::Groups::pending_fields), using(bc_preset::proofs::Bounds::preset_bounds))]
fn add_pending(alloc: Global, s: &State, out: &mut PartsWriter) -> Result<(), NoMemory>
    ensures { OnOk result (out.new ≡ with_parts (layout_of (pending_fields s.now.preset)) (parts_of (pending_fields s.now.preset) (pending_of s.now)) out.old) }
{
    let _preset = s.preset();
    add_attestations(alloc, s.previous_epoch_attestations(), out)?;
    add_attestations(alloc, s.current_epoch_attestations(), out)
}

#[tactic(auto, unfolding(state_parts::specs::inside::Groups::finality_fields))]
fn add_finality(s: &State, out: &mut PartsWriter) -> Result<(), NoMemory>
    ensures { OnOk result (out.new ≡ with_parts (layout_of finality_fields) (parts_of finality_fields (finality_of s.now)) out.old) }
{
    let fields = pieces_of!(
        &s.justification_bits(),
        &s.previous_justified_checkpoint(),
        &s.current_justified_checkpoint(),
        &s.finalized_checkpoint()
    );
    fields.add_to(out)
}

/// The length of the fixed part of a writing, in bytes, which no state of the preset is shorter than.
#[tactic(auto, unfolding(spec_state::specs::States::state_fields), using(bc_preset::proofs::Bounds::preset_bounds))]
pub fn shortest_state(preset: &Preset) -> u64
    requires { IsPreset preset.now }
    ensures { result ≡ fixed_length (layout_of (state_fields preset.now)) }
{
    let roots = 32 * preset.slots_per_historical_root;
    let mixes = 32 * preset.epochs_per_historical_vector;
    let slashings = 8 * preset.epochs_per_slashings_vector;
    401 + roots + roots + mixes + slashings
}

/// Writes each of the 21 fields.
#[tactic(auto, unfolding(spec_state::specs::States::state_fields, state_parts::specs::inside::Groups::clock_fields, state_parts::specs::inside::Groups::history_fields, state_parts::specs::inside::Groups::eth1_fields, state_parts::specs::inside::Groups::registry_fields, state_parts::specs::inside::Groups::pending_fields, state_parts::specs::inside::Groups::finality_fields))]
fn write_fields(alloc: Global, s: &State, out: &mut PartsWriter) -> Result<(), NoMemory>
    ensures { OnOk result (out.new ≡ with_parts (layout_of (state_fields s.now.preset)) (parts_of (state_fields s.now.preset) s.now) out.old) }
{
    add_clock(s, out)?;
    add_history(alloc, s, out)?;
    add_eth1(alloc, s, out)?;
    add_registry(alloc, s, out)?;
    add_pending(alloc, s, out)?;
    add_finality(s, out)
}

/// The writing of the fields: one buffer for the fixed part, and one for the variable parts.
#[tactic(auto, unfolding(spec_state::specs::States::state_codec), using(ssz_codec::proofs::Halves::halves_joined))]
fn write_plain(alloc: Global, s: &State) -> Result<Vec<u8>, NoMemory>
    ensures { IfOk result (λ bytes. bytes.items ≡ (state_codec s.now.preset).serialize s.now) }
{
    let mut parts = PartsWriter::new(alloc, shortest_state(s.preset()));
    write_fields(alloc, s, &mut parts)?;
    parts.finish()
}

impl State {
    /// The writing of the state, which must have one: each of its offsets fits in four bytes. It is read as this state.
    #[tactic(auto, using(spec_state::proofs::Writings::written_again))]
    pub fn write(&self, alloc: Global) -> Result<Vec<u8>, NoMemory>
        requires { HasWriting self.now }
        ensures writing { IfOk result (λ bytes. bytes.items ≡ (state_codec self.now.preset).serialize self.now) }
        ensures reads_back { IfOk result (λ bytes. (state_codec self.now.preset).deserialize bytes.items ≡ Some self.now) }
    {
        self.in_range();
        let bytes = write_plain(alloc, self)?;
        Ok(bytes)
    }
}

/// A state that is written is read again: it has a writing, and reading gives it back.
#[tactic(auto, using(crate::proofs::Unread::state_again))]
pub fn state_reads_back()
    ensures { (p : Preset) (s : PlainState) → (state_codec p).Within s → (state_codec p).deserialize ((state_codec p).serialize s) ≡ Some s }
{}

/// Two states never share a writing.
#[tactic(auto, using(crate::proofs::Unread::one_state))]
pub fn one_writing_of_states()
    ensures { (p : Preset) (s t : PlainState) → (state_codec p).Within s → (state_codec p).Within t → (state_codec p).serialize s ≡ (state_codec p).serialize t → s ≡ t }
{}
