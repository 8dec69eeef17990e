//! How many operations of each kind a block may carry (beacon-chain.md, "Max operations per block"; all presets share
//! them). The lists of a body take these types.

ghost use Rattle.std.specs.Prelude.{ℕ, ◌≤◌, ◌^◌};
ghost use Rattle.beacon_types.specs.Blocks.{max_proposer_slashings, max_attester_slashings, max_attestations, max_deposits, max_voluntary_exits};
ghost use Rattle.beacon_types.specs.laws.Blocks.{proposer_slashings_low, attester_slashings_low, attestations_low, deposits_low, voluntary_exits_low};

use ssz_codec::ListLimit;

/// MAX_PROPOSER_SLASHINGS.
#[derive(Drop)]
pub struct ProposerSlashingsLimit;

impl ListLimit for ProposerSlashingsLimit {
    ghost LIMIT = { max_proposer_slashings };

    const LIMIT: u64 = 16;

    ghost low = { proposer_slashings_low };
}

/// MAX_ATTESTER_SLASHINGS.
#[derive(Drop)]
pub struct AttesterSlashingsLimit;

impl ListLimit for AttesterSlashingsLimit {
    ghost LIMIT = { max_attester_slashings };

    const LIMIT: u64 = 2;

    ghost low = { attester_slashings_low };
}

/// MAX_ATTESTATIONS.
#[derive(Drop)]
pub struct AttestationsLimit;

impl ListLimit for AttestationsLimit {
    ghost LIMIT = { max_attestations };

    const LIMIT: u64 = 128;

    ghost low = { attestations_low };
}

/// MAX_DEPOSITS.
#[derive(Drop)]
pub struct DepositsLimit;

impl ListLimit for DepositsLimit {
    ghost LIMIT = { max_deposits };

    const LIMIT: u64 = 16;

    ghost low = { deposits_low };
}

/// MAX_VOLUNTARY_EXITS.
#[derive(Drop)]
pub struct VoluntaryExitsLimit;

impl ListLimit for VoluntaryExitsLimit {
    ghost LIMIT = { max_voluntary_exits };

    const LIMIT: u64 = 16;

    ghost low = { voluntary_exits_low };
}
