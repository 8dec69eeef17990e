//! What the array is told: nodes, messages, balances, checkpoints, the boost and who is silenced.
//!
//! All of it comes from the store above. It says nothing of weights; those are made from it.

ghost use Rattle.std.specs.Prelude.{◌≡◌, ◌+◌, ◌-◌, ◌*◌, ◌/◌, ◌<◌, ◌≤◌, ◌^◌, ◌∷◌, ◌++◌, [], false, true, max, length, slice_index_or, slice_set, vec_capacity, Some, IfSome, IfOk, OnOk};
ghost use Rattle.block_array.specs.PlainArray.{slot_at, message_of, vote_of, balance_of, is_listed};
ghost use Rattle.block_array.specs.GetLatestAttestingBalance.{proposer_score};
ghost use Rattle.bc_words.specs.Indices.{with_index};
ghost use Rattle.block_array.specs.UpdateLatestMessages.{with_message, with_changed, is_news};
ghost use Rattle.block_array.specs.Calls.{new_array, with_node, with_balances, with_checkpoints, with_boost, made};
ghost use Rattle.block_array.specs.inside.Held.{IsPlain};

use crate::facts::Facts;
use crate::list::{make_room, push_item};
use crate::node::{Message, Node};
use crate::stored_message::StoredMessage;
use crate::validator_set::ValidatorSet;
use bc_words::NoMemory;
use beacon_types::Checkpoint;
use hash_tree::Root;
use std::alloc::Global;
use std::marker::Model;

/// Nodes in order of arrival, each validator's latest message and balance, the checkpoints, the boosted node and the silenced
/// validators; and what changed since weights were made.
#[derive(Drop)]
pub(crate) struct Inputs {
    slots_per_epoch: u64,
    percent: u64,
    nodes: Vec<Node>,
    messages: Vec<StoredMessage>,
    balances: Vec<u64>,
    active_count: u64,
    total: u128,
    justified_node: u32,
    justified: Checkpoint,
    finalized: Checkpoint,
    boosted_node: Option<u32>,
    silenced: ValidatorSet,
    changed: Vec<u64>,
    balances_set: bool,
    anything_changed: bool,
    spare_nodes: u64,
    spare_validators: u64,
}

impl Model for Inputs {
    ghost use Rattle.block_array.specs.inside.Held.{Held, IsHeld};
    ghost use Rattle.block_array.specs.inside.Inputs.{held_of};

    ghost Value = { Held };

    ghost view = { held_of };

    ghost invariant = { λ inputs. IsHeld (held_of inputs) };
}

impl Inputs {
    /// One node, and nothing else.
    #[tactic(auto, using(crate::proofs::Holding::beginning))]
    pub(crate) fn new(
        alloc: Global,
        slots_per_epoch: u64,
        percent: u64,
        slot: u64,
        root: Root,
        facts: Facts,
    ) -> Result<Inputs, NoMemory>
        requires slots { 0 < slots_per_epoch }
        requires percent { percent ≤ 10000 }
        ensures { IfOk result (λ inputs. inputs.array ≡ new_array slots_per_epoch percent slot root facts) }
    {
        let first = Node {
            parent: None,
            slot,
            root,
            facts,
        };
        let mut nodes = Vec::new(alloc);
        nodes.push(first)?;
        let checkpoint = Checkpoint { epoch: 0, root };
        Ok(Inputs {
            slots_per_epoch,
            percent,
            nodes,
            messages: Vec::new(alloc),
            balances: Vec::new(alloc),
            active_count: 0,
            total: 0,
            justified_node: 0,
            justified: checkpoint,
            finalized: checkpoint,
            boosted_node: None,
            silenced: ValidatorSet::new(alloc),
            changed: Vec::new(alloc),
            balances_set: false,
            anything_changed: true,
            spare_nodes: 0,
            spare_validators: 0,
        })
    }

    /// The nodes.
    pub(crate) fn nodes(&self) -> &[Node]
        ensures same { result.now ≡ self.now.array.nodes }
        ensures plain { IsPlain self.now.array }
    {
        self.nodes.as_slice()
    }

    /// The message of a validator.
    #[tactic(auto, unfolding(crate::specs::PlainArray::message_of), using(crate::proofs::Items::reading))]
    pub(crate) fn message(&self, validator: u64) -> Option<Message>
        ensures { result ≡ message_of self.now.array validator }
    {
        match self.messages.get(validator as usize) {
            Some(stored) => stored.message(),
            None => None,
        }
    }

    /// Whether a validator is silenced.
    pub(crate) fn is_silenced(&self, validator: u64) -> bool
        ensures { result ≡ is_listed self.now.array.silenced_validators validator }
    {
        self.silenced.has(validator)
    }

    /// The message by which a validator weighs: none where it is silenced.
    #[tactic(auto, unfolding(crate::specs::PlainArray::vote_of))]
    pub(crate) fn vote(&self, validator: u64) -> Option<Message>
        ensures { result ≡ vote_of self.now.array validator }
    {
        if self.is_silenced(validator) {
            return None;
        }
        self.message(validator)
    }

    /// Whether a message of an epoch is news of a validator: it has none, or one of an earlier epoch; and it isn't silenced.
    pub(crate) fn is_news(&self, validator: u64, epoch: u64) -> bool
        ensures { result ≡ is_news self.now.array validator epoch }
    {
        if self.is_silenced(validator) {
            return false;
        }
        match self.message(validator) {
            Some(old) => old.epoch < epoch,
            None => true,
        }
    }

    /// The balance of a validator, in Gwei, which is 0 where it isn't active.
    #[tactic(auto, unfolding(crate::specs::PlainArray::balance_of), using(crate::proofs::Items::reading))]
    pub(crate) fn balance(&self, validator: u64) -> u64
        ensures { result ≡ balance_of self.now.array validator }
    {
        match self.balances.get(validator as usize) {
            Some(balance) => *balance,
            None => 0,
        }
    }

    /// How many balances there are, one for each validator of the justified checkpoint's state.
    pub(crate) fn balances(&self) -> usize
        ensures same { result ≡ length self.now.array.balances }
        ensures few { length self.now.array.balances ≤ 2 ^ 40 }
    {
        self.balances.len()
    }

    /// The boost, in Gwei.
    #[tactic(auto, unfolding(crate::specs::GetLatestAttestingBalance::proposer_score), using(crate::proofs::Boosts::boosting))]
    pub(crate) fn proposer_score(&self) -> u128
        ensures exact { result ≡ proposer_score self.now.array }
        ensures low { result < 2 ^ 112 }
    {
        let weight = committee_weight(self.active_count, self.slots_per_epoch, self.total);
        weight * u128::from(self.percent) / 100
    }

    /// The boosted node, if there is one.
    pub(crate) fn boosted_node(&self) -> Option<u32>
        ensures { result ≡ self.now.array.boosted_node }
    {
        self.boosted_node
    }

    /// The node of the justified checkpoint.
    pub(crate) fn justified_node(&self) -> u32
        ensures { result ≡ self.now.array.justified_node }
    {
        self.justified_node
    }

    /// The justified checkpoint.
    pub(crate) fn justified(&self) -> Checkpoint
        ensures { result ≡ self.now.array.justified_checkpoint }
    {
        self.justified
    }

    /// The finalized checkpoint.
    pub(crate) fn finalized(&self) -> Checkpoint
        ensures { result ≡ self.now.array.finalized_checkpoint }
    {
        self.finalized
    }

    /// The validators whose message changed, each once.
    pub(crate) fn changed(&self) -> &[u64]
        ensures { result.now ≡ self.now.array.changed_validators }
    {
        self.changed.as_slice()
    }

    /// Whether balances were set.
    pub(crate) fn balances_set(&self) -> bool
        ensures { result ≡ self.now.array.balances_set }
    {
        self.balances_set
    }

    /// Whether anything changed.
    pub(crate) fn anything_changed(&self) -> bool
        ensures { result ≡ self.now.array.anything_changed }
    {
        self.anything_changed
    }

    /// For how many nodes more there is room everywhere.
    pub(crate) fn spare_nodes(&self) -> u64
        ensures same { result ≡ self.now.array.spare_nodes }
        ensures room { length self.now.array.nodes + self.now.array.spare_nodes ≤ self.now.node_room }
    {
        self.spare_nodes
    }

    /// For the votes and the silencing of how many validators there is room everywhere.
    pub(crate) fn spare_validators(&self) -> u64
        ensures same { result ≡ self.now.array.spare_validators }
        ensures messages { self.now.array.spare_validators ≤ self.now.message_room }
        ensures changed { self.now.array.spare_validators ≤ self.now.changed_room }
        ensures silenced { self.now.array.spare_validators ≤ self.now.silenced_room }
        ensures few { self.now.array.spare_validators ≤ 2 ^ 40 }
    {
        self.spare_validators
    }

    /// Makes room for so many nodes in all.
    pub(crate) fn reserve_nodes(&mut self, places: usize) -> Result<(), NoMemory>
        ensures same { self.new ≡ record self.old { node_room = self.new.node_room } }
        ensures more { self.old.node_room ≤ self.new.node_room }
        ensures room { OnOk result (places ≤ self.new.node_room) }
    {
        make_room(&mut self.nodes, places)
    }

    /// Makes room for so many validators in all.
    pub(crate) fn reserve_validators(&mut self, places: usize) -> Result<(), NoMemory>
        ensures same { self.new ≡ record self.old { message_room = self.new.message_room; changed_room = self.new.changed_room; silenced_room = self.new.silenced_room } }
        ensures messages { self.old.message_room ≤ self.new.message_room }
        ensures changed { self.old.changed_room ≤ self.new.changed_room }
        ensures silenced { self.old.silenced_room ≤ self.new.silenced_room }
        ensures message_room { OnOk result (places ≤ self.new.message_room) }
        ensures changed_room { OnOk result (places ≤ self.new.changed_room) }
        ensures silenced_room { OnOk result (places ≤ self.new.silenced_room) }
    {
        match make_room(&mut self.messages, places) {
            Ok(()) => match make_room(&mut self.changed, places) {
                Ok(()) => self.silenced.reserve(places),
                Err(refused) => Err(refused),
            },
            Err(refused) => Err(refused),
        }
    }

    /// Takes so much to be spare. There is room for it.
    #[tactic(auto, using(crate::proofs::Holding::sparing))]
    pub(crate) fn set_spare(&mut self, nodes: u64, validators: u64)
        requires nodes { length self.old.array.nodes + nodes ≤ self.old.node_room }
        requires messages { validators ≤ self.old.message_room }
        requires changed { validators ≤ self.old.changed_room }
        requires silenced { validators ≤ self.old.silenced_room }
        requires few { validators ≤ 2 ^ 40 }
        ensures { self.new ≡ record self.old { array = record self.old.array { spare_nodes = nodes; spare_validators = validators } } }
    {
        self.spare_nodes = nodes;
        self.spare_validators = validators;
    }

    /// One node more. There is room for it.
    #[tactic(auto, using(crate::proofs::Holding::pushing))]
    pub(crate) fn push(&mut self, parent: u32, slot: u64, root: Root, facts: Facts)
        requires room { length self.old.array.nodes < self.old.node_room }
        requires few { length self.old.array.nodes < 2 ^ 32 - 1 }
        requires parent { parent < length self.old.array.nodes }
        requires later { slot_at self.old.array.nodes parent < slot }
        ensures pushed { self.new ≡ record self.old { array = with_node self.old.array parent slot root facts; node_room = self.new.node_room } }
        ensures room { self.old.node_room ≤ self.new.node_room }
    {
        let node = Node {
            parent: Some(parent),
            slot,
            root,
            facts,
        };
        push_item(&mut self.nodes, node);
        self.anything_changed = true;
        self.spare_nodes = self.spare_nodes.saturating_sub(1);
    }

    /// Another message of a validator, with no message between. There is room for it.
    #[tactic(auto, using(crate::proofs::Holding::putting))]
    pub(crate) fn put_message(&mut self, validator: u64, message: Message)
        requires room { validator < self.old.message_room }
        requires few { validator < 2 ^ 40 }
        requires node { message.node < length self.old.array.nodes }
        ensures put { self.new ≡ record self.old { array = record self.old.array { latest_messages = with_message self.old.array.latest_messages validator message; anything_changed = true }; message_room = self.new.message_room } }
        ensures room { self.old.message_room ≤ self.new.message_room }
    {
        put(&mut self.messages, validator as usize, message);
        self.anything_changed = true;
    }

    /// Silences one more validator. There is room for it.
    #[tactic(auto, using(crate::proofs::Holding::silencing))]
    pub(crate) fn put_silenced(&mut self, validator: u64)
        requires { validator < self.old.silenced_room }
        ensures put { self.new ≡ record self.old { array = record self.old.array { silenced_validators = with_index self.old.array.silenced_validators validator; anything_changed = true }; silenced_room = self.new.silenced_room } }
        ensures room { self.old.silenced_room ≤ self.new.silenced_room }
    {
        self.silenced.insert(validator);
        self.anything_changed = true;
    }

    /// Notes that a validator changed. There is room for it.
    #[tactic(auto, using(crate::proofs::Holding::noting))]
    pub(crate) fn push_changed(&mut self, validator: u64)
        requires { length self.old.array.changed_validators < self.old.changed_room }
        ensures noted { self.new ≡ record self.old { array = record self.old.array { changed_validators = self.old.array.changed_validators ++ validator ∷ [] }; changed_room = self.new.changed_room } }
        ensures room { self.old.changed_room ≤ self.new.changed_room }
    {
        push_item(&mut self.changed, validator);
    }

    /// Takes other balances.
    #[tactic(auto, using(crate::proofs::Holding::setting))]
    pub(crate) fn set_balances(&mut self, list: Vec<u64>, count: u64, total: u128)
        requires few { length list.items ≤ 2 ^ 40 }
        requires low { total ≤ 2 ^ 104 }
        ensures { self.new ≡ record self.old { array = with_balances self.old.array list.items count total } }
    {
        self.balances = list;
        self.active_count = count;
        self.total = total;
        self.balances_set = true;
        self.anything_changed = true;
    }

    /// Takes other checkpoints.
    #[tactic(auto, using(crate::proofs::Holding::setting))]
    pub(crate) fn set_checkpoints(
        &mut self,
        node: u32,
        justified: Checkpoint,
        finalized: Checkpoint,
    )
        requires { node < length self.old.array.nodes }
        ensures { self.new ≡ record self.old { array = with_checkpoints self.old.array node justified finalized } }
    {
        self.justified_node = node;
        self.justified = justified;
        self.finalized = finalized;
        self.anything_changed = true;
    }

    /// Takes another boosted node, or none.
    #[tactic(auto, using(crate::proofs::Holding::setting))]
    pub(crate) fn set_boosted_node(&mut self, node: Option<u32>)
        requires { IfSome node (λ number. number < length self.old.array.nodes) }
        ensures { self.new ≡ record self.old { array = with_boost self.old.array node } }
    {
        self.boosted_node = node;
        self.anything_changed = true;
    }

    /// Takes all changes to be made.
    #[tactic(auto, using(crate::proofs::Holding::setting))]
    pub(crate) fn set_made(&mut self)
        ensures { self.new ≡ record self.old { array = made self.old.array } }
    {
        self.changed.clear();
        self.balances_set = false;
        self.anything_changed = false;
    }
}

/// What a slot's committees weigh on average, where so many validators with this balance are active.
#[tactic(auto, using(crate::proofs::Boosts::averaging))]
fn committee_weight(active: u64, slots: u64, total: u128) -> u128
    requires slots { 0 < slots }
    requires total { total ≤ 2 ^ 104 }
    ensures exact { result ≡ active / slots * (total / active) }
    ensures low { result ≤ 2 ^ 104 }
{
    if active == 0 {
        return 0;
    }
    u128::from(active / slots) * (total / u128::from(active))
}

/// Puts a message into a validator's place, with empty places before it where there were none. There is room for it.
fn put(items: &mut Vec<StoredMessage>, validator: usize, message: Message)
    requires { validator < vec_capacity items.old }
    ensures exact { items.new.items ≡ with_message items.old.items validator message }
    ensures room { vec_capacity items.old ≤ vec_capacity items.new }
{
    for place in items.len()..validator {
        push_item(items, StoredMessage::none());
    }
    if validator < items.len() {
        items[validator] = StoredMessage::of(message);
    } else {
        push_item(items, StoredMessage::of(message));
    }
}
