//! The verdict on two histories: whether they agree, and else what keeps their offenders from being convicted, or what these have.
//!
//! All of it is read off the entries of the histories, the spans of votes and the genesis registry, in one pass over each. It takes
//! no memory.

ghost use Rattle.std.specs.Prelude.{◌≡◌, ◌<◌, ◌*◌, nat_lt, length};
ghost use Rattle.ffg_law.specs.Weights.{weight_of};
ghost use Rattle.spec_state.specs.Genesis.{header_root_of};
ghost use Rattle.spec_forensics.specs.declared.verdict.Verdict.TheVariants.{Moved};
ghost use Rattle.spec_forensics.specs.Steady.{genesis_weights, genesis_total};
ghost use Rattle.spec_forensics.specs.Verdict.{is_agreed, verdict_of};
ghost use Rattle.forensics.specs.Carried.{has_offence, Holds};
ghost use Rattle.forensics.specs.Books.{IsBeginning};
ghost use Rattle.forensics.specs.inside.Offenders.{counts};
ghost use Rattle.forensics.specs.inside.Whole.{carried_in};

use crate::history::History;
use crate::spans::CarriedVotes;
use balance_totals::{is_active_entry, total_active};
use beacon_state::{Entry, State};
use hash_tree::Root;
use spec_forensics::Verdict;

/// Whether one finalised epoch is 0, or one finalised block is the other or its ancestor.
#[tactic(auto, unfolding(spec_forensics::specs::Verdict::is_agreed))]
fn agree(genesis: &State, first: &History, second: &History) -> bool
    requires first { first.now.genesis ≡ genesis.now }
    requires second { second.now.genesis ≡ genesis.now }
    ensures { result ≡ is_agreed genesis.now first.now.blocks second.now.blocks first.now.finalized second.now.finalized }
{
    let a = first.finalized();
    let b = second.finalized();
    if a.epoch == 0 || b.epoch == 0 {
        return true;
    }
    let root = genesis.header_root();
    second.is_on_chain(&root, b.root, &a.root) || first.is_on_chain(&root, a.root, &b.root)
}

/// The total active balance of a genesis, in Gwei.
#[tactic(auto, using(crate::proofs::Offenders::total_is))]
fn genesis_total(genesis: &State) -> u64
    requires { IsBeginning genesis.now }
    ensures { result ≡ genesis_total genesis.now }
{
    match total_active(genesis, 0) {
        Ok(total) => total,
        Err(_) => unreachable!(),
    }
}

/// Whether a total is below two increments.
fn is_small(genesis: &State, total: u64) -> bool
    ensures { result ≡ nat_lt total (2 * genesis.now.preset.effective_balance_increment) }
{
    let preset = genesis.preset();
    preset.bounds();
    total < 2 * preset.effective_balance_increment
}

/// Whether the validator with an index is an offender that is active at genesis.
#[tactic(auto, unfolding(crate::specs::inside::Offenders::counts))]
fn counts(votes: &CarriedVotes, index: usize, validator: &Entry) -> bool
    requires { index < length votes.now.spans.spans }
    ensures { result ≡ counts votes.now index validator.now }
{
    is_active_entry(validator, 0) && votes.offends(index)
}

/// What the offenders have at genesis, where they are active there, in Gwei.
#[tactic(auto, using(crate::proofs::Offenders::weighing, balance_totals::proofs::LeftOf::others_left))]
fn offenders_balance(genesis: &State, votes: &CarriedVotes) -> u64
    requires beginning { IsBeginning genesis.now }
    requires validators { length votes.now.spans.spans ≡ length genesis.now.validators }
    ensures { result ≡ weight_of (genesis_weights genesis.now) (has_offence votes.now) }
{
    let mut balance = 0;
    let registry = genesis.registry();
    let _count = registry.len();
    let validators = registry.iter();
    for (index, validator) in validators.enumerate() {
        if counts(votes, index, &validator) {
            balance += validator.effective_balance();
        }
    }
    balance
}

/// The verdict that the validators of a history moved at a block and an epoch.
fn moved(which: u8, at: (Root, u64)) -> Verdict
    ensures { result ≡ Moved which at.0 at.1 }
{
    let (root, epoch) = at;
    Verdict::Moved { which, root, epoch }
}

/// The verdict on two histories on a genesis, whose votes are held.
#[tactic(auto, unfolding(spec_forensics::specs::Verdict::verdict_of, spec_forensics::specs::Verdict::unless_moved))]
pub(crate) fn judge(
    genesis: &State,
    first: &History,
    second: &History,
    votes: &CarriedVotes,
) -> Verdict
    requires beginning { IsBeginning genesis.now }
    requires first { first.now.genesis ≡ genesis.now }
    requires second { second.now.genesis ≡ genesis.now }
    requires validators { length votes.now.spans.spans ≡ length genesis.now.validators }
    requires votes { Holds votes.now (carried_in first.now.blocks second.now.blocks) }
    ensures { result ≡ verdict_of genesis.now first.now.blocks second.now.blocks first.now.finalized second.now.finalized }
{
    if agree(genesis, first, second) {
        return Verdict::Agree;
    }
    let total = genesis_total(genesis);
    if is_small(genesis, total) {
        return Verdict::Small(total);
    }
    if let Some(at) = first.first_move() {
        return moved(0, at);
    }
    if let Some(at) = second.first_move() {
        return moved(1, at);
    }
    Verdict::Conflict {
        balance: offenders_balance(genesis, votes),
        total,
    }
}
