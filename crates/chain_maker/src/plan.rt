//! What a chain is made by, and what each of its slots takes from it.

ghost use Rattle.std.specs.Prelude.{◌≡◌, ◌≤◌};
ghost use Rattle.spec_drill.specs.Plan.{slot_digest, is_skipped, graffiti_of, last_slot};
ghost use Rattle.spec_drill.specs.Make.{time_of};

use bc_preset::Config;
use hash_tree::Root;
use sha2::{Digest, Sha256};
use std::marker::Model;

/// A configuration by which a full validator isn't ejected, a number, and which of two chains it is where it is one of a
/// split. Contracts see the plan of the definitions.
#[derive(Drop)]
pub struct Plan {
    /// The configuration.
    pub config: Config,
    /// The number.
    pub number: u64,
    /// Which of two chains, 0 or 1.
    pub which: Option<u8>,
}

impl Model for Plan {
    ghost use Rattle.spec_drill.specs.Plan.{Plan, IsPlan};
    ghost use Rattle.chain_maker.specs.inside.Views.{plan_of};

    ghost Value = { Plan };

    ghost view = { plan_of };

    ghost invariant = { λ plan. IsPlan (plan_of plan) };
}

/// SHA-256 of the number and the slot, each as eight bytes, low byte first.
#[tactic(auto, unfolding(spec_drill::specs::Plan::slot_digest, hash_tree::specs::Merkle::hash, hash_tree::specs::Merkle::uint_to_bytes))]
pub fn slot_digest(number: u64, slot: u64) -> Root
    ensures { result ≡ slot_digest number slot }
{
    let mut hasher = Sha256::new();
    hasher.update(&number.to_le_bytes());
    hasher.update(&slot.to_le_bytes());
    hasher.finalize()
}

impl Plan {
    /// The last slot that has events.
    #[tactic(auto, unfolding(spec_drill::specs::Plan::last_slot))]
    pub fn last_slot(&self) -> u64
        ensures exact { result ≡ last_slot self.now }
        ensures low { result ≤ 1024 }
    {
        let preset = self.config.preset();
        let epochs = match self.which {
            None => 32,
            Some(_which) => 5,
        };
        epochs * preset.slots_per_epoch
    }

    /// Whether a slot has no block.
    #[tactic(auto, unfolding(spec_drill::specs::Plan::is_skipped))]
    pub fn is_skipped(&self, slot: u64) -> bool
        ensures { result ≡ is_skipped self.now slot }
    {
        let preset = self.config.preset();
        let digest = slot_digest(self.number, slot);
        match self.which {
            None => digest[0] < 16 && slot % preset.slots_per_epoch != 0,
            Some(_which) => false,
        }
    }

    /// The graffiti of a slot's block.
    #[tactic(auto, unfolding(spec_drill::specs::Plan::graffiti_of))]
    pub fn graffiti(&self, slot: u64) -> Root
        ensures { result ≡ graffiti_of self.now slot }
    {
        match self.which {
            None => slot_digest(self.number, slot),
            Some(0) => [0xaa; 32],
            Some(_second) => [0xbb; 32],
        }
    }

    /// The second at which a slot begins.
    #[tactic(auto, unfolding(spec_drill::specs::Make::time_of))]
    pub fn time_of(&self, slot: u64) -> u64
        requires { slot ≤ 1024 }
        ensures { result ≡ time_of self.now slot }
    {
        1000 + slot * self.config.seconds_per_slot()
    }
}
