//! The limit of a committee, which lists of its members have (phase 0 presets, "Misc").

ghost use Rattle.std.specs.Prelude.{ℕ, ◌≤◌, ◌^◌};
ghost use Rattle.beacon_types.specs.Limits.{max_validators_per_committee};
ghost use Rattle.beacon_types.specs.laws.Limits.{max_members_low};

use ssz_codec::ListLimit;

/// How many members a committee may have, which all presets share.
pub const MAX_VALIDATORS_PER_COMMITTEE: u64 = 2048;

/// That limit, as the limit of a list.
#[derive(Drop)]
pub struct CommitteeLimit;

impl ListLimit for CommitteeLimit {
    ghost LIMIT = { max_validators_per_committee };

    const LIMIT: u64 = MAX_VALIDATORS_PER_COMMITTEE;

    ghost low = { max_members_low };
}
