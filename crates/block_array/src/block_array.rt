//! The array of nodes: what it is told, what is counted, and what is made of it.
//!
//! The store above tells nodes, votes, balances, checkpoints, the boost and who is silenced. `apply` makes weights and the head, which
//! `weight` and `head` then look up.

ghost use Rattle.std.specs.Prelude.{◌≡◌, ◌+◌, ◌<◌, ◌≤◌, ◌^◌, ◌-◌, false, length, vec_capacity, IfSome, IfOk, IsOk};
ghost use Rattle.bc_words.specs.Outcome.{Becomes};
ghost use Rattle.block_array.specs.PlainArray.{slot_at};
ghost use Rattle.block_array.specs.Silence.{silence};
ghost use Rattle.block_array.specs.Calls.{new_array, with_node, with_balances, with_checkpoints, with_boost, with_spare, made};
ghost use Rattle.block_array.specs.UpdateLatestMessages.{update_latest_message};
ghost use Rattle.block_array.specs.GetAncestor.{get_ancestor};
ghost use Rattle.block_array.specs.GetHead.{get_head};
ghost use Rattle.block_array.specs.GetLatestAttestingBalance.{get_latest_attesting_balance};
ghost use Rattle.block_array.specs.Work.{steps_of};

use crate::apply_score_changes::apply_score_changes;
use crate::best_descendant::{BestDescendant, UNMADE, best_descendant_at};
use crate::compute_deltas::compute_deltas;
use crate::facts::Facts;
use crate::get_ancestor::get_ancestor;
use crate::inputs::Inputs;
use crate::list::push_item;
use crate::node::Message;
use crate::note::{note, note_silence};
use crate::room::{grow_nodes, grow_validators, room_for_node, room_for_validator};
use crate::tally::Tally;
use crate::weight::weight_of;
use bc_words::{NoMemory, Steps};
use beacon_types::Checkpoint;
use hash_tree::Root;
use std::alloc::Global;
use std::marker::Model;
use std::sync::ledger::Ledger;

/// Nodes in order of arrival with the votes for them. Contracts see the plain array.
pub struct BlockArray {
    inputs: Inputs,
    tally: Tally,
    bests: Vec<BestDescendant>,
}

// Written by hand, so that a call that lets one go is one call, and not one for each of its lists.
impl Drop for BlockArray {
    fn drop(self) {
        let BlockArray {
            inputs,
            tally,
            bests,
        } = self;
        drop(inputs);
        drop(tally);
        drop(bests);
    }
}

impl Model for BlockArray {
    ghost use Rattle.std.specs.Prelude.{vec_capacity};
    ghost use Rattle.block_array.specs.PlainArray.{PlainArray};
    ghost use Rattle.block_array.specs.inside.Noted.{IsArray};

    ghost Value = { PlainArray };

    ghost view = { λ a. a.inputs.array };

    ghost invariant = { λ a. IsArray a.inputs.array a.tally a.bests.items (vec_capacity a.bests) a.inputs.changed_room };
}

impl BlockArray {
    /// One node, of this slot and root and with these facts of the state behind it; no vote, no balance and no boost, and the
    /// checkpoints of epoch 0 at it. A slot has a share of `slots_per_epoch` in the weight of all, and the boost is `percent`
    /// hundredths of that.
    pub fn new(
        alloc: Global,
        slots_per_epoch: u64,
        percent: u64,
        slot: u64,
        root: Root,
        facts: Facts,
    ) -> Result<BlockArray, NoMemory>
        requires slots { 0 < slots_per_epoch }
        requires percent { percent ≤ 10000 }
        ensures { IfOk result (λ array. array ≡ new_array slots_per_epoch percent slot root facts) }
    {
        let mut bests = Vec::new(alloc);
        bests.push(UNMADE)?;
        let tally = Tally::new(alloc)?;
        let inputs = Inputs::new(alloc, slots_per_epoch, percent, slot, root, facts)?;
        Ok(BlockArray {
            inputs,
            tally,
            bests,
        })
    }

    /// Makes room: afterwards the next `push`, and each `vote` and `silence` of a validator below this number, can't fail. Where
    /// memory is refused, all is as before.
    pub fn reserve(&mut self, validators: u64) -> Result<(), NoMemory>
        ensures { Becomes result self.old self.new (with_spare self.old validators) }
    {
        grow_nodes(&mut self.inputs, &mut self.tally, &mut self.bests)?;
        grow_validators(&mut self.inputs, &mut self.tally, validators)?;
        let nodes = self.inputs.spare_nodes().max(1);
        let voters = self.inputs.spare_validators().max(validators);
        self.inputs.set_spare(nodes, voters);
        Ok(())
    }

    /// One node more, of a later slot than its parent; its number. Where memory is refused, all is as before.
    pub fn push(
        &mut self,
        parent: u32,
        slot: u64,
        root: Root,
        facts: Facts,
    ) -> Result<u32, NoMemory>
        requires few { length self.old.nodes < 2 ^ 32 - 1 }
        requires parent { parent < length self.old.nodes }
        requires later { slot_at self.old.nodes parent < slot }
        ensures pushed { Becomes result self.old self.new (with_node self.old parent slot root facts) }
        ensures number { IfOk result (λ number. number ≡ length self.old.nodes) }
        ensures spare { 0 < self.old.spare_nodes → IsOk result }
    {
        room_for_node(&mut self.inputs, &mut self.tally, &mut self.bests)?;
        let number = self.inputs.nodes().len() as u32;
        self.inputs.push(parent, slot, root, facts);
        self.tally.push_node();
        push_item(&mut self.bests, UNMADE);
        Ok(number)
    }

    /// Takes a validator's vote for a node, by its target's epoch, where it isn't silenced and has none or one of an earlier epoch,
    /// and else changes nothing. Where memory is refused, all is as before.
    pub fn vote(&mut self, validator: u64, node: u32, epoch: u64) -> Result<(), NoMemory>
        requires { node < length self.old.nodes }
        ensures voted { Becomes result self.old self.new (update_latest_message self.old validator (record { epoch = epoch; node = node })) }
        ensures spare { validator < self.old.spare_validators → IsOk result }
    {
        if !self.inputs.is_news(validator, epoch) {
            return Ok(());
        }
        room_for_validator(&mut self.inputs, &mut self.tally, validator)?;
        note(
            &mut self.inputs,
            &mut self.tally,
            validator,
            Message { epoch, node },
        );
        Ok(())
    }

    /// Silences a validator: it weighs nothing from then on, and no vote of it is taken. Where it is silenced already, nothing
    /// changes. Where memory is refused, all is as before.
    pub fn silence(&mut self, validator: u64) -> Result<(), NoMemory>
        ensures silenced { Becomes result self.old self.new (silence self.old validator) }
        ensures spare { validator < self.old.spare_validators → IsOk result }
    {
        if self.inputs.is_silenced(validator) {
            return Ok(());
        }
        room_for_validator(&mut self.inputs, &mut self.tally, validator)?;
        note_silence(&mut self.inputs, &mut self.tally, validator);
        Ok(())
    }

    /// Takes the balances of the justified checkpoint's state, in Gwei: one for each of its validators, 0 where it isn't active
    /// at the state's epoch; how many are active, and their total balance.
    pub fn set_balances(&mut self, list: Vec<u64>, count: u64, total: u128)
        requires few { length list.items ≤ 2 ^ 40 }
        requires low { total ≤ 2 ^ 104 }
        ensures { self.new ≡ with_balances self.old list.items count total }
    {
        self.inputs.set_balances(list, count, total);
    }

    /// Takes other checkpoints, the justified one's block being this node.
    pub fn set_checkpoints(&mut self, node: u32, justified: Checkpoint, finalized: Checkpoint)
        requires { node < length self.old.nodes }
        ensures { self.new ≡ with_checkpoints self.old node justified finalized }
    {
        self.inputs.set_checkpoints(node, justified, finalized);
    }

    /// Boosts another node, or none.
    pub fn boost(&mut self, node: Option<u32>)
        requires { IfSome node (λ number. number < length self.old.nodes) }
        ensures { self.new ≡ with_boost self.old node }
    {
        self.inputs.set_boosted_node(node);
    }

    /// The node at a slot on the chain of a node, or the last one before it (fork-choice.md, `get_ancestor`).
    pub fn ancestor(&self, node: u32, slot: u64) -> u32
        requires { node < length self.now.nodes }
        ensures { result ≡ get_ancestor self.now.nodes node slot }
    {
        get_ancestor(self.inputs.nodes(), node, slot)
    }

    /// Makes weights and the head, where anything changed. A step is the delta of one validator, or one visit of a node: at
    /// most a delta for each changed validator, or where balances were set for each that voted or was silenced, and two visits of each
    /// node.
    /// The nodes before the justified one, from which no head is looked for, aren't visited.
    pub fn apply<L: Ledger>(&mut self, steps: &mut Steps<L>)
        ensures up_to_date { self.new ≡ made self.old }
        ensures steps { steps.new ≤ steps.old + steps_of self.old }
    {
        if !self.inputs.anything_changed() {
            return;
        }
        compute_deltas(&self.inputs, &mut self.tally, steps);
        apply_score_changes(&self.inputs, &self.tally, &mut self.bests, steps);
        self.inputs.set_made();
    }

    /// The weight of a node, in Gwei (fork-choice.md, `get_latest_attesting_balance`), after `apply`, which made it, unless the
    /// node comes before the justified one: then the votes are summed now.
    pub fn weight(&self, node: u32) -> u128
        requires node { node < length self.now.nodes }
        requires up_to_date { self.now.anything_changed ≡ false }
        ensures { result ≡ get_latest_attesting_balance self.now node }
    {
        if node < self.inputs.justified_node() {
            return weight_of(&self.inputs, &self.tally, node);
        }
        best_descendant_at(&self.bests, node as usize).weight
    }

    /// The head (fork-choice.md, `get_head`), where `apply` made it.
    pub fn head(&self) -> u32
        requires { self.now.anything_changed ≡ false }
        ensures { result ≡ get_head self.now }
    {
        let nodes = self.inputs.nodes();
        let node = self.inputs.justified_node();
        best_descendant_at(&self.bests, node as usize).descendant
    }
}
