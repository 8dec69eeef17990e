//! The votes of an attestation (fork-choice.md, "update_latest_messages"), taken into the array one after another.

ghost use Rattle.std.specs.Prelude.{◌≡◌, ◌<◌, ◌≤◌, length, IfOk, true, IfErr};
ghost use Rattle.fork_store.specs.inside.ArrayVotes.{updated_array};
ghost use Rattle.fork_store.specs.inside.Messages.{AllBelow};
ghost use Rattle.bc_words.specs.Outcome.{Becomes};
ghost use Rattle.spec_fork_choice.specs.Store.{is_kept};
ghost use Rattle.spec_fork_choice.specs.UpdateLatestMessages.{update_latest_messages};
ghost use Rattle.fork_store.specs.inside.Wholes.{IsWhole};

use crate::kept_blocks::node_number;
use crate::ready_balances::ReadyBalances;
use crate::store_fields::StoreFields;
use bc_words::NoMemory;
use beacon_types::Attestation;
use block_array::BlockArray;

/// How many places a list needs so that it has one for each of these indices. Without memory where no list is so long.
pub fn places_for(indices: &[u64]) -> Result<usize, NoMemory>
    ensures { IfOk result (λ places. AllBelow places indices.now) }
{
    let mut places = 0;
    for i in 0..indices.len() {
        places = places_with(places, indices[i])?;
    }
    Ok(places)
}

/// So many places, or more where an index needs more.
fn places_with(places: usize, index: u64) -> Result<usize, NoMemory>
    ensures index { IfOk result (λ more. index < more) }
    ensures more { IfOk result (λ more. places ≤ more) }
{
    if index == u64::MAX {
        return Err(NoMemory);
    }
    let needed = index as usize + 1;
    Ok(if places < needed { needed } else { places })
}

/// Takes the votes of these validators for a node. There is room for all.
#[tactic(auto, using(crate::proofs::Voting::each_votes))]
pub fn vote_all(array: &mut BlockArray, indices: &[u64], node: u32, epoch: u64)
    requires room { AllBelow array.old.spare_validators indices.now }
    requires node { node < length array.old.nodes }
    ensures { array.new ≡ updated_array array.old indices.now (record { epoch = epoch; node = node }) }
{
    for i in 0..indices.len() {
        let _room = array.vote(indices[i], node, epoch);
    }
}

/// Takes the attestation's vote for each of these validators to whom it is news. Where memory is refused, the store and its array
/// are as before: all room is made first.
pub(crate) fn update_latest_messages(
    store: &mut StoreFields,
    array: &mut BlockArray,
    ready: &Option<ReadyBalances>,
    attesting_indices: &[u64],
    attestation: &Attestation,
) -> Result<(), NoMemory>
    requires whole { IsWhole store.old array.old ready.now }
    requires kept { is_kept store.old.blocks attestation.now.content.beacon_block_root ≡ true }
    ensures exact { Becomes result store.old store.new (update_latest_messages store.old attesting_indices.now attestation.now) }
    ensures whole { IsWhole store.new array.new ready.now }
    ensures balances_set_stays { array.new.balances_set ≡ array.old.balances_set }
    ensures config { store.new.config ≡ store.old.config }
    ensures blocks { store.new.blocks ≡ store.old.blocks }
    ensures stays { IfErr result (λ _. array.new ≡ array.old) }
{
    store.is_sound();
    let content = &attestation.content;
    let Some(node) = node_number(store.blocks(), content.beacon_block_root) else {
        unreachable!()
    };
    let places = places_for(attesting_indices)?;
    array.reserve(places as u64)?;
    vote_all(array, attesting_indices, node, content.target.epoch);
    store.take_votes(array);
    Ok(())
}
