//! The steps of the argument, each a function whose condition and promise are the step.
//!
//! They do nothing when they run. A list of links has the latest first, and a set of validators is a list of indices. What is
//! said of histories is said of all plain ones, so that a caller needs no slice of them.

ghost use Rattle.std.specs.Prelude.{◌≡◌, ◌<◌, ◌⊎◌, ◌||◌, ℕ, List, IsTrue, min, slice_index};
ghost use Rattle.bc_words.specs.Outcome.{done};
ghost use Rattle.beacon_types.specs.Slashable.{is_slashable_attestation_data};
ghost use Rattle.spec_state.specs.declared.plain.PlainState.{PlainState};
ghost use Rattle.spec_state.specs.Misc.{effective_balance};
ghost use Rattle.spec_state.specs.Accessors.{get_total_balance};
ghost use Rattle.ffg_law.specs.Weights.{IsTwoThirds, IsThird, IsSet, among, both};
ghost use Rattle.ffg_law.specs.Links.{Voted, IsOneOf, IsChain, IsFinalized, AreApart, Conflict, IsSlashable, link_of};
ghost use Rattle.ffg_law.specs.Links.{HaveTwoThirds, AThirdIsConvicted, voted, links_of};
ghost use Rattle.ffg_law.specs.Histories.{EpochEnd, IsLarge, IsHistory, AreLinked, IsFinalLinked, IsMadeAtEnd, total_of};
ghost use Rattle.ffg_law.specs.Histories.{last_from, nothing_justified, genesis_checkpoint, finalized_of, made_by};

use crate::link::{Link, VotedLink};
use beacon_types::{AttestationData, Checkpoint};

/// Each justified checkpoint of a history, where it is above epoch 0, has a link from an earlier justified one by
/// validators of at least two thirds, and all links are a chain from genesis. So it is at each end of an epoch, since
/// what came before it is a history too.
pub fn chain_links()
    ensures chain { (increment : ℕ) (weights : List ℕ) (history : List EpochEnd) → IsLarge increment weights → IsHistory increment weights history
        → IsChain genesis_checkpoint (links_of (made_by increment weights history)) }
    ensures thirds { (increment : ℕ) (weights : List ℕ) (history : List EpochEnd) → IsLarge increment weights → IsHistory increment weights history
        → HaveTwoThirds weights (made_by increment weights history) }
    ensures linked { (increment : ℕ) (weights : List ℕ) (history : List EpochEnd) → IsLarge increment weights → IsHistory increment weights history
        → AreLinked weights (made_by increment weights history) (last_from nothing_justified history) }
{}

/// What a history finalises above epoch 0, by whichever of the four cases, its links finalise: one of them goes from
/// there to the next epoch, or to the one after it with the one between justified.
pub fn finals_are_linked()
    ensures { (increment : ℕ) (weights : List ℕ) (history : List EpochEnd) → IsLarge increment weights → IsHistory increment weights history
        → IsFinalLinked (made_by increment weights history) (last_from nothing_justified history) }
{}

/// Each link of a history was made at one of its ends, by the attesters of that epoch's block or of the one before it.
pub fn links_are_made_at_ends()
    ensures { (increment : ℕ) (weights : List ℕ) (history : List EpochEnd) (v : Voted) → IsOneOf v (made_by increment weights history)
        → IsMadeAtEnd increment weights history v }
{}

/// The total that a state gives of a set of validators is what the set weighs, by any weights that are the effective balances of
/// those in the set.
pub fn totals_are_weights()
    ensures { (state : PlainState) (weights indices : List ℕ) (total : ℕ) → IsSet indices
        → ((index : ℕ) → IsOneOf index indices → effective_balance state.validators index ≡ slice_index weights index)
        → get_total_balance state indices ≡ done total → total ≡ total_of state.preset.effective_balance_increment weights indices }
{}

/// Two chains that finalise checkpoints, and share no target checkpoint from the lesser of these on, have two links
/// for which nobody may vote both.
pub fn finals_conflict(
    genesis: Checkpoint,
    first: &[Link],
    second: &[Link],
    first_final: Checkpoint,
    second_final: Checkpoint,
)
    requires genesis_epoch { genesis.epoch ≡ 0 }
    requires first_chain { IsChain genesis first.now }
    requires second_chain { IsChain genesis second.now }
    requires first_finalized { IsFinalized first.now first_final }
    requires second_finalized { IsFinalized second.now second_final }
    requires apart { AreApart (min first_final.epoch second_final.epoch) first.now second.now }
    ensures { Conflict first.now second.now }
{}

/// Votes for two links that nobody may vote both for are slashable attestations, in one of both orders.
pub fn votes_are_slashable(first: &AttestationData, second: &AttestationData)
    requires { IsSlashable (link_of first.now) (link_of second.now) }
    ensures { IsTrue (is_slashable_attestation_data first.now second.now || is_slashable_attestation_data second.now first.now) }
{}

/// Two sets of two thirds share at least a third.
pub fn thirds_overlap(first: &[u64], second: &[u64], weights: &[u64])
    requires first_thirds { IsTwoThirds weights.now (among first.now) }
    requires second_thirds { IsTwoThirds weights.now (among second.now) }
    ensures { IsThird weights.now (both (among first.now) (among second.now)) }
{}

/// Two such chains, whose links have votes of two thirds each, convict validators of at least a third.
pub fn finals_convict(
    genesis: Checkpoint,
    first: &[VotedLink],
    second: &[VotedLink],
    first_final: Checkpoint,
    second_final: Checkpoint,
    weights: &[u64],
)
    requires genesis_epoch { genesis.epoch ≡ 0 }
    requires first_chain { IsChain genesis (links_of (voted first.now)) }
    requires second_chain { IsChain genesis (links_of (voted second.now)) }
    requires first_thirds { HaveTwoThirds weights.now (voted first.now) }
    requires second_thirds { HaveTwoThirds weights.now (voted second.now) }
    requires first_finalized { IsFinalized (links_of (voted first.now)) first_final }
    requires second_finalized { IsFinalized (links_of (voted second.now)) second_final }
    requires apart { AreApart (min first_final.epoch second_final.epoch) (links_of (voted first.now)) (links_of (voted second.now)) }
    ensures { AThirdIsConvicted weights.now (voted first.now) (voted second.now) }
{}

/// Accountable safety: two histories over one list of weights that finalise checkpoints above epoch 0, and whose links
/// share no target checkpoint from the lesser of these on, convict validators of at least a third.
pub fn a_third_is_convicted()
    ensures { (increment : ℕ) (weights : List ℕ) (first second : List EpochEnd) → IsLarge increment weights
        → IsHistory increment weights first → IsHistory increment weights second
        → 0 < (finalized_of first).epoch → 0 < (finalized_of second).epoch
        → AreApart (min (finalized_of first).epoch (finalized_of second).epoch)
        (links_of (made_by increment weights first)) (links_of (made_by increment weights second))
        → AThirdIsConvicted weights (made_by increment weights first) (made_by increment weights second) }
{}
