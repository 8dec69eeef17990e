//! A validator with the root over its key and its withdrawal credentials, which never change.

ghost use Rattle.std.specs.Prelude.{◌≡◌};
ghost use Rattle.beacon_types.specs.inside.ValidatorChunks.{owner_root};

use beacon_types::Validator;
use hash_tree::{Leaf, Root, hash_pair};

/// What a group keeps of a validator. Its effective balance stands beside, and the one here says nothing.
#[derive(Clone, Copy)]
pub(crate) struct Member {
    /// The validator, with any effective balance.
    pub(crate) validator: Validator,
    /// The root over its key and its withdrawal credentials.
    pub(crate) owner: Root,
    ghost owner_is: { owner ≡ owner_root validator },
}

impl Member {
    /// That of a validator.
    #[tactic(auto, using(crate::proofs::MemberRoots::owner_of_parts))]
    pub(crate) fn of(validator: &Validator) -> Member
        ensures { result.validator ≡ validator.now }
    {
        let owner = hash_pair(&validator.pubkey.root(), &validator.withdrawal_credentials);
        Member::with(validator, owner)
    }

    /// That of a validator, the root over whose key and withdrawal credentials is known.
    pub(crate) fn with(validator: &Validator, owner: Root) -> Member
        requires { owner ≡ owner_root validator.now }
        ensures { result.validator ≡ validator.now }
    {
        Member {
            validator: *validator,
            owner,
        }
    }
}
