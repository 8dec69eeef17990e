//! What is hashed of a validator without its key and its withdrawal credentials.
//!
//! Most validators of a registry are alike in the rest. `roots` keeps these hashes from one group to the next.

ghost use Rattle.std.specs.Prelude.{◌≡◌, ◌↔◌, IsTrue};
ghost use Rattle.beacon_types.specs.inside.ValidatorChunks.{IsAlike, status_root, epochs_root};
ghost use Rattle.validator_registry.specs.inside.Groups.{validator_of};

use crate::member::Member;
use beacon_types::Validator;
use hash_tree::{Leaf, Root, hash_pair};

/// The validator that a member is with its effective balance.
pub(crate) fn validator_with(member: &Member, balance: u64) -> Validator
    ensures { result ≡ validator_of member.now balance }
{
    Validator {
        effective_balance: balance,
        ..member.validator
    }
}

/// Whether a member with its effective balance is alike the other validator in all but the key and the withdrawal credentials.
pub(crate) fn is_alike(member: &Member, balance: u64, other: &Validator) -> bool
    ensures { IsTrue result ↔ IsAlike (validator_of member.now balance) other.now }
{
    let validator = &member.validator;
    balance == other.effective_balance
        && validator.slashed == other.slashed
        && validator.activation_eligibility_epoch == other.activation_eligibility_epoch
        && validator.activation_epoch == other.activation_epoch
        && validator.exit_epoch == other.exit_epoch
        && validator.withdrawable_epoch == other.withdrawable_epoch
}

/// Roots below that of a validator, and of each that is alike.
#[derive(Clone, Copy)]
pub(crate) struct RestRoots {
    /// The validator of which they were made.
    validator: Validator,
    /// The root over its effective balance and whether it was slashed.
    pub(crate) status: Root,
    /// The root over its epochs.
    pub(crate) epochs: Root,
    ghost status_is: { status ≡ status_root validator },
    ghost epochs_is: { epochs ≡ epochs_root validator },
}

impl RestRoots {
    /// Those of a validator.
    #[tactic(auto, unfolding(beacon_types::specs::inside::ValidatorChunks::status_root, beacon_types::specs::inside::ValidatorChunks::epochs_root))]
    fn new(validator: &Validator) -> RestRoots
        ensures { result.validator ≡ validator.now }
    {
        let status = hash_pair(
            &validator.effective_balance.root(),
            &validator.slashed.root(),
        );
        let begin = hash_pair(
            &validator.activation_eligibility_epoch.root(),
            &validator.activation_epoch.root(),
        );
        let end = hash_pair(
            &validator.exit_epoch.root(),
            &validator.withdrawable_epoch.root(),
        );
        RestRoots {
            validator: *validator,
            status,
            epochs: hash_pair(&begin, &end),
        }
    }
}

/// The roots of a member with its effective balance: those that are kept where it is alike, else new ones.
pub(crate) fn kept_or_new(kept: Option<RestRoots>, member: &Member, balance: u64) -> RestRoots
    ensures status { result.status ≡ status_root (validator_of member.now balance) }
    ensures epochs { result.epochs ≡ epochs_root (validator_of member.now balance) }
{
    if let Some(roots) = kept {
        if is_alike(member, balance, &roots.validator) {
            return roots;
        }
    }
    RestRoots::new(&validator_with(member, balance))
}
