//! A validator as a group holds it.

ghost use Rattle.std.specs.Prelude.{◌≡◌};

use crate::member::Member;
use beacon_types::Validator;
use hash_tree::Root;
use std::marker::Model;

/// A validator, read where it stands. Contracts see it as the validator.
#[derive(Drop)]
pub struct Entry<'a> {
    pub(crate) member: &'a Member,
    pub(crate) effective_balance: u64,
}

impl<'a> Model for Entry<'a> {
    ghost use Rattle.beacon_types.specs.declared.validator.Validator.{Validator};

    ghost Value = { Validator };

    ghost use Rattle.validator_registry.specs.inside.Groups.{validator_of};

    ghost view = { λ entry. validator_of entry.member.now entry.effective_balance };
}

impl<'a> Entry<'a> {
    /// Its public key.
    pub fn pubkey(&self) -> &'a [u8; 48]
        ensures { result.now ≡ self.now.pubkey }
    {
        &self.member.validator.pubkey
    }

    /// The commitment to what its balance is withdrawn to.
    pub fn withdrawal_credentials(&self) -> Root
        ensures { result ≡ self.now.withdrawal_credentials }
    {
        self.member.validator.withdrawal_credentials
    }

    /// The balance that counts, in Gwei.
    pub fn effective_balance(&self) -> u64
        ensures { result ≡ self.now.effective_balance }
    {
        self.effective_balance
    }

    /// Whether it was slashed.
    pub fn slashed(&self) -> bool
        ensures { result ≡ self.now.slashed }
    {
        self.member.validator.slashed
    }

    /// The epoch from which it may be activated.
    pub fn activation_eligibility_epoch(&self) -> u64
        ensures { result ≡ self.now.activation_eligibility_epoch }
    {
        self.member.validator.activation_eligibility_epoch
    }

    /// The first epoch in which it is active.
    pub fn activation_epoch(&self) -> u64
        ensures { result ≡ self.now.activation_epoch }
    {
        self.member.validator.activation_epoch
    }

    /// The first epoch in which it is active no longer.
    pub fn exit_epoch(&self) -> u64
        ensures { result ≡ self.now.exit_epoch }
    {
        self.member.validator.exit_epoch
    }

    /// The epoch from which its balance may be withdrawn.
    pub fn withdrawable_epoch(&self) -> u64
        ensures { result ≡ self.now.withdrawable_epoch }
    {
        self.member.validator.withdrawable_epoch
    }

    /// The whole validator.
    pub fn validator(&self) -> Validator
        ensures { result ≡ self.now }
    {
        let mut validator = self.member.validator;
        validator.effective_balance = self.effective_balance;
        validator
    }
}
