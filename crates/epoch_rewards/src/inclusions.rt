//! The first inclusion of the least delay among the attestations in which a validator attests (beacon-chain.md,
//! "get_inclusion_delay_deltas").

ghost use Rattle.std.specs.Prelude.{◌≡◌, Option};
ghost use Rattle.epoch_rewards.specs.inside.Inclusions.{better};

/// What is paid for an attestation's inclusion, and to whom.
#[derive(Clone, Copy)]
pub struct Inclusion {
    /// How many slots passed before a block brought it.
    pub delay: u64,
    /// Who proposed that block.
    pub proposer: u64,
}

/// The inclusion of an attestation, or the earlier one where its delay is no greater.
#[tactic(auto, unfolding(crate::specs::inside::Inclusions::better))]
pub(crate) fn better(earlier: Option<Inclusion>, inclusion: Inclusion) -> Option<Inclusion>
    ensures { result ≡ better earlier inclusion }
{
    match earlier {
        Some(kept) if kept.delay <= inclusion.delay => earlier,
        _ => Some(inclusion),
    }
}
