//! The state: its fields, and the plain record that they stand for.
//!
//! What is kept here is named by the getters, the setters and the lists alone, so that how a list is kept can change under
//! the same contracts.

ghost use Rattle.std.specs.Prelude.{◌≡◌, IfOk};
ghost use Rattle.spec_state.specs.Limits.{IsState, IsInRange};
ghost use Rattle.beacon_state.specs.inside.Plain.{HasRoots, HasRegistry, HasPending, HasKept, IsHeld, plain_of};

mod getters;
mod kept;
mod lists;
mod registry;
mod setters;
mod whole;

use active_sets::{ActiveLists, KeptCommittees};
use bc_preset::Preset;
use bc_words::NoMemory;
use beacon_types::{BeaconBlockHeader, Checkpoint, Eth1Data, Fork, PendingAttestation};
use hash_tree::Root;
use spec_state::PlainState;
use state_parts::{
    Numbers, Rooted, Validators, Values, both, lists_built, pending_built, registry_built,
    vectors_built,
};
use std::alloc::Global;
use std::marker::Model;

/// The root of a state, and that of its latest block where this was kept too.
#[derive(Clone, Copy)]
pub(crate) struct KeptRoot {
    pub(crate) root: Root,
    pub(crate) header: Option<Root>,
}

/// A state of the beacon chain (beacon-chain.md, "BeaconState"), whose lists are within the limits of its preset. It is one pointer:
/// a call that hands a state on moves no field.
#[derive(Drop)]
pub struct State {
    fields: Box<Fields>,
    alloc: Global,
}

/// The fields, and what is kept beside them.
pub(crate) struct Fields {
    preset: Preset,
    genesis_time: u64,
    genesis_validators_root: Root,
    slot: u64,
    fork: Rooted<Fork>,
    latest_block_header: BeaconBlockHeader,
    block_roots: Values<Root>,
    state_roots: Values<Root>,
    historical_roots: Values<Root>,
    eth1_data: Rooted<Eth1Data>,
    eth1_data_votes: Values<Eth1Data>,
    eth1_deposit_index: u64,
    validators: Validators,
    balances: Numbers,
    randao_mixes: Values<Root>,
    slashings: Numbers,
    previous_epoch_attestations: Values<PendingAttestation>,
    current_epoch_attestations: Values<PendingAttestation>,
    justification_bits: [bool; 4],
    previous_justified_checkpoint: Rooted<Checkpoint>,
    current_justified_checkpoint: Rooted<Checkpoint>,
    finalized_checkpoint: Rooted<Checkpoint>,
    // The roots, where they were kept and nothing changed since.
    kept_root: Option<KeptRoot>,
    // The active validators of epochs and their committees, where they were kept. Those who share the state share them.
    active_lists: ActiveLists,
    kept_committees: KeptCommittees,
}

// Written by hand, so that a call that lets a state go is one call, and not one for each of its lists.
impl Drop for Fields {
    fn drop(self) {
        let Fields {
            preset: _,
            genesis_time: _,
            genesis_validators_root: _,
            slot: _,
            fork,
            latest_block_header: _,
            block_roots,
            state_roots,
            historical_roots,
            eth1_data,
            eth1_data_votes,
            eth1_deposit_index: _,
            validators,
            balances,
            randao_mixes,
            slashings,
            previous_epoch_attestations,
            current_epoch_attestations,
            justification_bits: _,
            previous_justified_checkpoint,
            current_justified_checkpoint,
            finalized_checkpoint,
            kept_root: _,
            active_lists,
            kept_committees,
        } = self;
        drop(fork);
        drop(block_roots);
        drop(state_roots);
        drop(historical_roots);
        drop(eth1_data);
        drop(eth1_data_votes);
        drop(validators);
        drop(balances);
        drop(randao_mixes);
        drop(slashings);
        drop(previous_epoch_attestations);
        drop(current_epoch_attestations);
        drop(previous_justified_checkpoint);
        drop(current_justified_checkpoint);
        drop(finalized_checkpoint);
        drop(active_lists);
        drop(kept_committees);
    }
}

impl Model for State {
    ghost use Rattle.spec_state.specs.declared.plain.PlainState.{PlainState};

    ghost Value = { PlainState };

    ghost use Rattle.beacon_state.specs.inside.Plain.{plain_of, IsHeld};

    ghost view = { λ s. plain_of s.fields.value };

    ghost invariant = { λ s. IsHeld s.fields.value };
}

impl State {
    /// The state of these fields, which must be within the limits of their preset. The tree of each list is built once.
    pub fn from_plain(alloc: Global, plain: PlainState) -> Result<State, NoMemory>
        requires state { IsState plain }
        requires range { IsInRange plain }
        ensures { IfOk result (λ state. state ≡ plain) }
    {
        let PlainState {
            preset,
            genesis_time,
            genesis_validators_root,
            slot,
            fork,
            latest_block_header,
            block_roots,
            state_roots,
            historical_roots,
            eth1_data,
            eth1_data_votes,
            eth1_deposit_index,
            validators,
            balances,
            randao_mixes,
            slashings,
            previous_epoch_attestations,
            current_epoch_attestations,
            justification_bits,
            previous_justified_checkpoint,
            current_justified_checkpoint,
            finalized_checkpoint,
        } = plain;
        let vectors = vectors_built(&preset, block_roots, state_roots, randao_mixes);
        let lists = lists_built(&preset, historical_roots, eth1_data_votes);
        let registry = registry_built(&preset, validators, balances, slashings);
        let pending = pending_built(
            &preset,
            previous_epoch_attestations,
            current_epoch_attestations,
        );
        let ((vectors, lists), (registry, pending)) = both(
            both(vectors, lists),
            both(registry, pending),
        )?;
        let (block_roots, state_roots, randao_mixes) = vectors;
        let (historical_roots, eth1_data_votes) = lists;
        let (validators, balances, slashings) = registry;
        let (previous_epoch_attestations, current_epoch_attestations) = pending;
        let kept_committees = KeptCommittees::none(&preset);
        let fields = Fields {
            preset,
            genesis_time,
            genesis_validators_root,
            slot,
            fork: Rooted::new(fork),
            latest_block_header,
            block_roots,
            state_roots,
            historical_roots,
            eth1_data: Rooted::new(eth1_data),
            eth1_data_votes,
            eth1_deposit_index,
            validators,
            balances,
            randao_mixes,
            slashings,
            previous_epoch_attestations,
            current_epoch_attestations,
            justification_bits,
            previous_justified_checkpoint: Rooted::new(previous_justified_checkpoint),
            current_justified_checkpoint: Rooted::new(current_justified_checkpoint),
            finalized_checkpoint: Rooted::new(finalized_checkpoint),
            kept_root: None,
            active_lists: ActiveLists::none(),
            kept_committees,
        };
        State::of(fields, alloc)
    }

    /// The state of these fields. It is a call of its own: put into the calls that make fields, its code would be moves of each
    /// of them from place to place.
    #[inline(never)]
    fn of(fields: Fields, alloc: Global) -> Result<State, NoMemory>
        requires { IsHeld fields }
        ensures { IfOk result (λ state. state ≡ plain_of fields) }
    {
        Ok(State {
            fields: Box::new(alloc, fields)?,
            alloc,
        })
    }

    /// An equal state, whose lists stand in the same nodes. What is kept is kept there too.
    pub fn share(&self) -> Result<State, NoMemory>
        ensures { IfOk result (λ state. state ≡ self.now) }
    {
        let roots = self.share_roots()?;
        let registry = self.share_registry()?;
        let pending = self.share_pending()?;
        let (active_lists, kept_committees) = self.share_kept()?;
        let (((block_roots, state_roots), historical_roots), randao_mixes) = roots;
        let ((validators, balances), slashings) = registry;
        let ((eth1_data_votes, previous_epoch_attestations), current_epoch_attestations) = pending;
        let genesis_validators_root = self.fields.genesis_validators_root;
        let justification_bits = self.fields.justification_bits;
        let fields = Fields {
            preset: self.fields.preset,
            genesis_time: self.fields.genesis_time,
            genesis_validators_root,
            slot: self.fields.slot,
            fork: self.fields.fork.again(),
            latest_block_header: self.fields.latest_block_header,
            block_roots,
            state_roots,
            historical_roots,
            eth1_data: self.fields.eth1_data.again(),
            eth1_data_votes,
            eth1_deposit_index: self.fields.eth1_deposit_index,
            validators,
            balances,
            randao_mixes,
            slashings,
            previous_epoch_attestations,
            current_epoch_attestations,
            justification_bits,
            previous_justified_checkpoint: self.fields.previous_justified_checkpoint.again(),
            current_justified_checkpoint: self.fields.current_justified_checkpoint.again(),
            finalized_checkpoint: self.fields.finalized_checkpoint.again(),
            kept_root: self.fields.kept_root,
            active_lists,
            kept_committees,
        };
        State::of(fields, self.alloc)
    }

    /// The lists of roots once more.
    fn share_roots(
        &self,
    ) -> Result<(((Values<Root>, Values<Root>), Values<Root>), Values<Root>), NoMemory>
        ensures { IfOk result (HasRoots self.now) }
    {
        let block_roots = self.fields.block_roots.share()?;
        let state_roots = self.fields.state_roots.share()?;
        let historical_roots = self.fields.historical_roots.share()?;
        let randao_mixes = self.fields.randao_mixes.share()?;
        Ok((((block_roots, state_roots), historical_roots), randao_mixes))
    }

    /// The registry, the balances and the slashed balances once more.
    fn share_registry(&self) -> Result<((Validators, Numbers), Numbers), NoMemory>
        ensures { IfOk result (HasRegistry self.now) }
    {
        let validators = self.fields.validators.share()?;
        let balances = self.fields.balances.share()?;
        let slashings = self.fields.slashings.share()?;
        Ok(((validators, balances), slashings))
    }

    /// The votes and the pending attestations once more.
    fn share_pending(
        &self,
    ) -> Result<
        (
            (Values<Eth1Data>, Values<PendingAttestation>),
            Values<PendingAttestation>,
        ),
        NoMemory,
    >
        ensures { IfOk result (HasPending self.now) }
    {
        let votes = self.fields.eth1_data_votes.share()?;
        let previous = self.fields.previous_epoch_attestations.share()?;
        let current = self.fields.current_epoch_attestations.share()?;
        Ok(((votes, previous), current))
    }

    /// The lists of active validators and the committees that are kept, once more.
    fn share_kept(&self) -> Result<(ActiveLists, KeptCommittees), NoMemory>
        ensures { IfOk result (HasKept self.now) }
    {
        let active_lists = self.fields.active_lists.share()?;
        let kept_committees = self.fields.kept_committees.share()?;
        Ok((active_lists, kept_committees))
    }

    /// The state is within the limits of its preset. It does nothing when it runs.
    pub(crate) fn limits(&self)
        ensures { IsState self.now }
    {
        let _preset = &self.fields.preset;
    }
}
