//! What is hashed of a validator without its key and its withdrawal credentials.
//!
//! Most validators of a registry are alike in the rest. `validator_roots` keeps these hashes from one validator to the next.

ghost use Rattle.std.specs.Prelude.{◌≡◌, ◌↔◌, IsTrue};
ghost use Rattle.beacon_types.specs.inside.ValidatorChunks.{IsAlike, status_root, epochs_root};

use crate::validator::Validator;
use hash_tree::{Leaf, Root, hash_pair};

/// Whether the validators are alike in all but their keys and withdrawal credentials.
pub(crate) fn is_alike(a: &Validator, b: &Validator) -> bool
    ensures { IsTrue result ↔ IsAlike a.now b.now }
{
    a.effective_balance == b.effective_balance
        && a.slashed == b.slashed
        && a.activation_eligibility_epoch == b.activation_eligibility_epoch
        && a.activation_epoch == b.activation_epoch
        && a.exit_epoch == b.exit_epoch
        && a.withdrawable_epoch == b.withdrawable_epoch
}

/// Roots below that of a validator, and of each that is alike.
#[derive(Clone, Copy)]
pub(crate) struct KeptRoots {
    /// The validator of which they were made.
    validator: Validator,
    /// The root over its effective balance and whether it was slashed.
    pub(crate) status: Root,
    /// The root over its epochs.
    pub(crate) epochs: Root,
    ghost status_is: { status ≡ status_root validator },
    ghost epochs_is: { epochs ≡ epochs_root validator },
}

impl KeptRoots {
    /// Those of a validator.
    #[tactic(auto, unfolding(crate::specs::inside::ValidatorChunks::status_root, crate::specs::inside::ValidatorChunks::epochs_root))]
    fn new(validator: &Validator) -> KeptRoots
        ensures { result.validator ≡ validator.now }
    {
        let status = hash_pair(
            &validator.effective_balance.root(),
            &validator.slashed.root(),
        );
        let begin = hash_pair(
            &validator.activation_eligibility_epoch.root(),
            &validator.activation_epoch.root(),
        );
        let end = hash_pair(
            &validator.exit_epoch.root(),
            &validator.withdrawable_epoch.root(),
        );
        KeptRoots {
            validator: *validator,
            status,
            epochs: hash_pair(&begin, &end),
        }
    }
}

/// The roots of a validator: those that are kept where it is alike, else new ones.
pub(crate) fn kept_or_new(kept: Option<KeptRoots>, validator: &Validator) -> KeptRoots
    ensures status { result.status ≡ status_root validator.now }
    ensures epochs { result.epochs ≡ epochs_root validator.now }
{
    if let Some(roots) = kept {
        if is_alike(&roots.validator, validator) {
            return roots;
        }
    }
    KeptRoots::new(validator)
}
