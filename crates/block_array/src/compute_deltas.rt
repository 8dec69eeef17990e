//! What is due is counted: the deltas of changed messages and silenced validators, or of all where balances were set, and the boost.
//!
//! Messages and balances come from the inputs. A delta takes what was counted of a validator off its old node, and counts its
//! balance at the new one.

ghost use Rattle.std.specs.Prelude.{◌≡◌, ℕ, ◌+◌, ◌<◌, ◌≤◌, false, true, length, slice_set, if◌then◌else◌};
ghost use Rattle.block_array.specs.Work.{deltas_of};
ghost use Rattle.block_array.specs.inside.Counts.{counted_of};
ghost use Rattle.block_array.specs.inside.Held.{due, boost_due};
ghost use Rattle.block_array.specs.inside.Noted.{IsNoted, AreDue, has_delta, goes_in_order};
ghost use Rattle.block_array.specs.inside.BestDescendants.{IsCounted};

use crate::inputs::Inputs;
use crate::tally::Tally;
use bc_words::Steps;
use std::sync::ledger::Ledger;

/// How many marks may be looked at for one delta. One behind the other, they take about the time of a delta that is far from the
/// one before it.
const MARKS_A_DELTA: usize = 32;

/// Counts what is due of a validator. One delta.
#[tactic(auto, unfolding(crate::specs::inside::Held::due))]
fn compute_delta<L: Ledger>(
    inputs: &Inputs,
    tally: &mut Tally,
    validator: u64,
    steps: &mut Steps<L>,
)
    requires inside { validator < length tally.old.validators }
    requires nodes { tally.old.nodes ≡ length inputs.now.array.nodes }
    ensures counted { tally.new ≡ record tally.old { validators = slice_set tally.old.validators validator (due inputs.now.array validator) } }
    ensures steps { steps.new ≡ steps.old + 1 }
{
    steps.tick();
    let _nodes = inputs.nodes();
    match inputs.vote(validator) {
        Some(message) => tally.count(validator as usize, message.node, inputs.balance(validator)),
        None => tally.count(validator as usize, 0, 0),
    }
}

/// Counts what is due of each validator that changed. A delta of each.
#[tactic(auto, using(crate::proofs::Noting::changing))]
fn compute_changed_deltas<L: Ledger>(inputs: &Inputs, tally: &mut Tally, steps: &mut Steps<L>)
    requires noted { IsNoted inputs.now.array tally.old }
    requires kept { inputs.now.array.balances_set ≡ false }
    ensures same { tally.new ≡ record tally.old { validators = tally.new.validators } }
    ensures length_is { length tally.new.validators ≡ length tally.old.validators }
    ensures made { AreDue inputs.now.array tally.new.validators (length tally.new.validators) }
    ensures steps { steps.new ≡ steps.old + deltas_of inputs.now.array }
{
    let changed = inputs.changed();
    for i in 0..changed.len() {
        compute_delta(inputs, tally, changed[i], steps);
    }
}

/// Whether a validator has a delta: it changed, or balances were set and it has a message.
#[tactic(auto, unfolding(crate::specs::inside::Noted::has_delta))]
fn has_delta(inputs: &Inputs, tally: &Tally, validator: usize) -> bool
    requires { validator < length tally.now.validators }
    ensures { result ≡ has_delta inputs.now.array tally.now.validators validator }
{
    tally.is_changed(validator)
        || inputs.balances_set() && inputs.message(validator as u64).is_some()
}

/// Counts what is due of a validator, if it has a delta. A delta of it.
#[tactic(auto, using(crate::proofs::Noting::idling))]
fn compute_delta_if_due<L: Ledger>(
    inputs: &Inputs,
    tally: &mut Tally,
    validator: usize,
    steps: &mut Steps<L>,
)
    requires inside { validator < length tally.old.validators }
    requires nodes { tally.old.nodes ≡ length inputs.now.array.nodes }
    requires current { has_delta inputs.now.array tally.old.validators validator ≡ false → counted_of tally.old.validators validator ≡ due inputs.now.array validator }
    ensures counted { tally.new ≡ record tally.old { validators = slice_set tally.old.validators validator (due inputs.now.array validator) } }
    ensures steps { steps.new ≡ steps.old + (if has_delta inputs.now.array tally.old.validators validator then 1 else 0) }
{
    if has_delta(inputs, tally, validator) {
        compute_delta(inputs, tally, validator as u64, steps);
    }
}

/// Counts what is due of all validators, in their order. A delta of each that has one; where balances weren't set, fewer than
/// thirty-two marks are looked at for each of these.
#[tactic(auto, using(crate::proofs::Noting::in_order))]
fn compute_deltas_in_order<L: Ledger>(inputs: &Inputs, tally: &mut Tally, steps: &mut Steps<L>)
    requires noted { IsNoted inputs.now.array tally.old }
    requires worth { goes_in_order inputs.now.array tally.old.validators ≡ true }
    ensures same { tally.new ≡ record tally.old { validators = tally.new.validators } }
    ensures length_is { length tally.new.validators ≡ length tally.old.validators }
    ensures made { AreDue inputs.now.array tally.new.validators (length tally.new.validators) }
    ensures steps { steps.new ≤ steps.old + deltas_of inputs.now.array }
{
    for validator in 0..tally.validators() {
        compute_delta_if_due(inputs, tally, validator, steps);
    }
}

/// Whether all validators are gone through in their order: where balances were set; or where so many validators changed, one in
/// thirty-two, that this is faster than to go through the changed ones in the order in which their votes came, where each may be
/// far from the one before it.
#[tactic(auto, unfolding(crate::specs::inside::Noted::goes_in_order))]
fn goes_in_order(inputs: &Inputs, tally: &Tally) -> bool
    ensures { result ≡ goes_in_order inputs.now.array tally.now.validators }
{
    inputs.balances_set() || tally.validators() / MARKS_A_DELTA < inputs.changed().len()
}

/// Counts the boost that is due.
fn compute_boost_delta(inputs: &Inputs, tally: &mut Tally)
    requires { tally.old.nodes ≡ length inputs.now.array.nodes }
    ensures { tally.new ≡ record tally.old { boost = boost_due inputs.now.array } }
{
    let _nodes = inputs.nodes();
    match inputs.boosted_node() {
        Some(node) => tally.set_boost(node, inputs.proposer_score()),
        None => tally.set_boost(0, 0),
    }
}

/// Counts what is due of whatever changed.
#[tactic(auto, using(crate::proofs::Noting::computing_deltas))]
pub(crate) fn compute_deltas<L: Ledger>(inputs: &Inputs, tally: &mut Tally, steps: &mut Steps<L>)
    requires { IsNoted inputs.now.array tally.old }
    ensures counted { IsCounted inputs.now.array tally.new }
    ensures room { tally.new ≡ record tally.old { validators = tally.new.validators; boost = tally.new.boost } }
    ensures length_is { length tally.new.validators ≡ length tally.old.validators }
    ensures steps { steps.new ≤ steps.old + deltas_of inputs.now.array }
{
    if goes_in_order(inputs, tally) {
        compute_deltas_in_order(inputs, tally, steps);
    } else {
        compute_changed_deltas(inputs, tally, steps);
    }
    compute_boost_delta(inputs, tally);
}
