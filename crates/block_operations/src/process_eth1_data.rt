//! The vote of a block for the data of the deposit contract (beacon-chain.md, "Eth1 data").

ghost use Rattle.std.specs.Prelude.{◌≡◌, ◌≤◌, ◌*◌, ◌^◌, length, nat_lt};
ghost use Rattle.bc_words.specs.Outcome.{Changes};
ghost use Rattle.beacon_types.specs.Containers.{eth1_data_codec};
ghost use Rattle.spec_state.specs.States.{votes_limit};
ghost use Rattle.spec_blocks.specs.ProcessEth1Data.{same_eth1_data, count_votes, process_eth1_data};

use bc_words::Stop;
use beacon_state::State;
use beacon_types::{BeaconBlockBody, Eth1Data};
use hash_tree::Root;

/// Whether the two are equal.
fn same_eth1_data(a: &Eth1Data, b: &Eth1Data) -> bool
    ensures { result ≡ same_eth1_data a.now b.now }
{
    a.deposit_root == b.deposit_root
        && a.deposit_count == b.deposit_count
        && a.block_hash == b.block_hash
}

/// How many of the votes are for the data.
#[tactic(auto, using(crate::proofs::Votes::counting))]
fn count_votes(state: &State, eth1_data: &Eth1Data) -> u64
    ensures exact { result ≡ count_votes state.now.eth1_data_votes eth1_data.now }
    ensures few { result ≤ length state.now.eth1_data_votes }
{
    let mut count = 0;
    for vote in state.eth1_data_vote_list().iter() {
        if same_eth1_data(vote, eth1_data) {
            count += 1;
        }
    }
    count
}

/// How many votes a period has.
#[tactic(auto, using(bc_preset::proofs::Bounds::preset_bounds))]
fn votes_limit(state: &State) -> u64
    ensures exact { result ≡ votes_limit state.now.preset }
    ensures low { result ≤ 2 ^ 11 }
{
    let preset = state.preset();
    preset.bounds();
    preset.epochs_per_eth1_voting_period * preset.slots_per_epoch
}

/// Whether more than half of a period's votes are for the data. They are not where there are no more than half of them yet.
#[tactic(auto, using(crate::proofs::Votes::votes_few))]
fn has_won(state: &State, eth1_data: &Eth1Data) -> bool
    ensures { result ≡ nat_lt (votes_limit state.now.preset) (count_votes state.now.eth1_data_votes eth1_data.now * 2) }
{
    let limit = votes_limit(state);
    if state.eth1_data_votes_len() * 2 <= limit {
        return false;
    }
    limit < count_votes(state, eth1_data) * 2
}

/// Appends the block's vote for the data of the deposit contract, which has this root, and which becomes that of the state where more than half of a
/// period's votes are for it (beacon-chain.md, `process_eth1_data`).
///
/// Refused as a full list exactly where the period has all its votes. After a stop the state is as before.
#[tactic(auto, unfolding(spec_blocks::specs::ProcessEth1Data::process_eth1_data))]
pub fn process_eth1_data(state: &mut State, body: &BeaconBlockBody, root: Root) -> Result<(), Stop>
    requires { root ≡ eth1_data_codec.hash_tree_root body.now.eth1_data }
    ensures { Changes result state.old state.new (process_eth1_data state.old body.now) }
{
    state.push_eth1_data_votes(body.eth1_data, root)?;
    if has_won(state, &body.eth1_data) {
        state.set_known_eth1_data(body.eth1_data, root);
    }
    Ok(())
}
