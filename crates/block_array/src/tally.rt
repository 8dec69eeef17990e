//! The balances that are counted, at the nodes that they are voted for.
//!
//! Votes and balances come from the array; its pass over the nodes reads what is counted at each one. To count one validator
//! anew takes one step, whatever was counted of it before.

ghost use Rattle.std.specs.Prelude.{◌≡◌, ℕ, Bool, ◌+◌, ◌<◌, ◌≤◌, ◌^◌, ◌∷◌, ◌++◌, [], false, true, length, slice_index_or, slice_set, vec_capacity, IfOk, OnOk};
ghost use Rattle.block_array.specs.inside.Counts.{nothing, counted_of, own_at, all_of, counted_at, IsBelow};
ghost use Rattle.std.specs.List.{All};

use crate::list::{make_room, push_item};
use bc_words::NoMemory;
use std::alloc::Global;
use std::marker::Model;

/// What is counted of one validator, in Gwei, and at which node; and whether its message changed since. Fields lie in this order:
/// in another one each would take half as much again, and all of them are gone through.
#[derive(Clone, Copy)]
pub(crate) struct Counted {
    pub(crate) node: u32,
    pub(crate) changed: bool,
    pub(crate) balance: u64,
}

const _: () = prove!(size_of::<Counted>() == 16);

/// What is counted of each validator, and of the boost, in Gwei; and for each node what is counted at it.
#[derive(Drop)]
pub(crate) struct Tally {
    own: Vec<u128>,
    counted: Vec<Counted>,
    boosted_node: u32,
    boost: u128,
}

impl Model for Tally {
    ghost use Rattle.block_array.specs.inside.Counts.{Counts, IsTally};
    ghost use Rattle.block_array.specs.inside.Tallies.{boost_of, counts_of};

    ghost Value = { Counts };

    ghost view = { counts_of };

    ghost invariant = { λ t. IsTally t.own.items (boost_of t) t.counted.items };
}

impl Tally {
    /// One node, and nothing counted.
    #[tactic(auto, using(crate::proofs::Counting::beginning))]
    pub(crate) fn new(alloc: Global) -> Result<Tally, NoMemory>
        ensures validators { IfOk result (λ tally. tally.validators ≡ []) }
        ensures boost { IfOk result (λ tally. tally.boost ≡ nothing) }
        ensures nodes { IfOk result (λ tally. tally.nodes ≡ 1) }
        ensures room { IfOk result (λ tally. 1 ≤ tally.node_room) }
    {
        let mut own = Vec::new(alloc);
        match own.push(0) {
            Ok(()) => Ok(Tally {
                own,
                counted: Vec::new(alloc),
                boosted_node: 0,
                boost: 0,
            }),
            Err(_refused) => Err(NoMemory),
        }
    }

    /// What is counted at a node, in Gwei.
    #[tactic(auto, unfolding(crate::specs::inside::Counts::own_at))]
    pub(crate) fn own(&self, node: usize) -> u128
        requires { node < self.now.nodes }
        ensures { result ≡ own_at self.now node }
    {
        self.own[node]
    }

    /// What is counted of a validator.
    #[tactic(auto, unfolding(crate::specs::inside::Counts::counted_of), using(crate::proofs::Counting::reading))]
    pub(crate) fn counted(&self, validator: usize) -> Counted
        requires { validator < length self.now.validators }
        ensures { result ≡ counted_of self.now.validators validator }
    {
        self.counted[validator]
    }

    /// The node that the boost is counted at.
    pub(crate) fn boosted_node(&self) -> u32
        ensures { result ≡ self.now.boost.node }
    {
        self.boosted_node
    }

    /// The boost, in Gwei, 0 where there is none.
    pub(crate) fn boost(&self) -> u128
        ensures { result ≡ self.now.boost.balance }
    {
        self.boost
    }

    /// How many validators there are.
    pub(crate) fn validators(&self) -> usize
        ensures same { result ≡ length self.now.validators }
        ensures few { length self.now.validators ≤ 2 ^ 40 }
        ensures room { length self.now.validators ≤ self.now.validator_room }
    {
        self.counted.len()
    }

    /// Balances are counted at nodes, and all together fit.
    #[tactic(auto, using(crate::proofs::Counting::bounding))]
    pub(crate) fn bounds(&self)
        ensures below { All (IsBelow self.now.nodes) (all_of self.now) }
        ensures low { (test : ℕ → Bool) → counted_at test (all_of self.now) < 2 ^ 113 }
    {
        let _ = &self.own;
    }

    /// Whether a validator's message changed.
    #[tactic(auto, unfolding(crate::specs::inside::Counts::counted_of), using(crate::proofs::Counting::reading))]
    pub(crate) fn is_changed(&self, validator: usize) -> bool
        requires { validator < length self.now.validators }
        ensures { result ≡ (counted_of self.now.validators validator).changed }
    {
        self.counted[validator].changed
    }

    /// Makes room for so many nodes in all.
    pub(crate) fn reserve_nodes(&mut self, places: usize) -> Result<(), NoMemory>
        ensures same { self.new ≡ record self.old { node_room = self.new.node_room } }
        ensures more { self.old.node_room ≤ self.new.node_room }
        ensures room { OnOk result (places ≤ self.new.node_room) }
    {
        make_room(&mut self.own, places)
    }

    /// Makes room for so many validators in all.
    pub(crate) fn reserve_validators(&mut self, places: usize) -> Result<(), NoMemory>
        ensures same { self.new ≡ record self.old { validator_room = self.new.validator_room } }
        ensures more { self.old.validator_room ≤ self.new.validator_room }
        ensures room { OnOk result (places ≤ self.new.validator_room) }
    {
        make_room(&mut self.counted, places)
    }

    /// One node more. There is room for it.
    #[tactic(auto, using(crate::proofs::Counting::adding))]
    pub(crate) fn push_node(&mut self)
        requires { self.old.nodes < self.old.node_room }
        ensures pushed { self.new ≡ record self.old { nodes = self.old.nodes + 1; node_room = self.new.node_room } }
        ensures more { self.old.node_room ≤ self.new.node_room }
    {
        push_item(&mut self.own, 0);
    }

    /// One validator more, of whom nothing is counted. There is room for it.
    #[tactic(auto, using(crate::proofs::Counting::adding))]
    pub(crate) fn push_validator(&mut self)
        requires room { length self.old.validators < self.old.validator_room }
        requires few { length self.old.validators < 2 ^ 40 }
        ensures pushed { self.new ≡ record self.old { validators = self.old.validators ++ nothing ∷ []; validator_room = self.new.validator_room } }
        ensures more { self.old.validator_room ≤ self.new.validator_room }
    {
        let nothing = Counted {
            node: 0,
            balance: 0,
            changed: false,
        };
        push_item(&mut self.counted, nothing);
    }

    /// Notes that a validator's message changed.
    #[tactic(auto, unfolding(crate::specs::inside::Counts::counted_of), using(crate::proofs::Counting::reading))]
    pub(crate) fn mark(&mut self, validator: usize)
        requires { validator < length self.old.validators }
        ensures { self.new ≡ record self.old { validators = slice_set self.old.validators validator (record (counted_of self.old.validators validator) { changed = true }) } }
    {
        let old = self.counted[validator];
        self.counted[validator] = Counted {
            node: old.node,
            balance: old.balance,
            changed: true,
        };
    }

    /// Counts a balance of a validator at a node, in the place of what was counted of it.
    #[tactic(auto, using(crate::proofs::Counting::counting))]
    pub(crate) fn count(&mut self, validator: usize, node: u32, balance: u64)
        requires validator { validator < length self.old.validators }
        requires node { node < self.old.nodes }
        ensures { self.new ≡ record self.old { validators = slice_set self.old.validators validator (record { node = node; balance = balance; changed = false }) } }
    {
        let old = self.counted[validator];
        take_from(&mut self.own, old.node as usize, u128::from(old.balance));
        self.counted[validator] = Counted {
            node,
            balance,
            changed: false,
        };
        add_to(&mut self.own, node as usize, u128::from(balance));
    }

    /// Counts a boost at a node, in the place of what was counted of it.
    #[tactic(auto, using(crate::proofs::Counting::counting))]
    pub(crate) fn set_boost(&mut self, node: u32, amount: u128)
        requires node { node < self.old.nodes }
        requires low { amount < 2 ^ 112 }
        ensures { self.new ≡ record self.old { boost = record { node = node; balance = amount; changed = false } } }
    {
        take_from(&mut self.own, self.boosted_node as usize, self.boost);
        self.boosted_node = node;
        self.boost = amount;
        add_to(&mut self.own, node as usize, amount);
    }
}

/// Takes so much from the number at a place.
fn take_from(own: &mut Vec<u128>, place: usize, amount: u128)
    requires inside { place < length own.old.items }
    requires enough { amount ≤ slice_index_or own.old.items place 0 }
    ensures set { own.new.items ≡ slice_set own.old.items place (slice_index_or own.new.items place 0) }
    ensures less { slice_index_or own.new.items place 0 + amount ≡ slice_index_or own.old.items place 0 }
    ensures room { vec_capacity own.new ≡ vec_capacity own.old }
{
    own[place] -= amount;
}

/// Adds so much to the number at a place.
fn add_to(own: &mut Vec<u128>, place: usize, amount: u128)
    requires inside { place < length own.old.items }
    requires fits { slice_index_or own.old.items place 0 + amount < 2 ^ 128 }
    ensures set { own.new.items ≡ slice_set own.old.items place (slice_index_or own.old.items place 0 + amount) }
    ensures room { vec_capacity own.new ≡ vec_capacity own.old }
{
    own[place] += amount;
}
