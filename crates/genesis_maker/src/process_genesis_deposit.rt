//! A deposit of a genesis (beacon-chain.md, "Genesis"): its leaf joins the tree, the deposit root becomes the tree's, and it is
//! processed with its branch in that tree.

ghost use Rattle.std.specs.Prelude.{◌≡◌, ◌<◌, ◌^◌, ◌++◌, ◌∷◌, [], length, IfOk, OnOk};
ghost use Rattle.bc_words.specs.Outcome.{Moves};
ghost use Rattle.beacon_types.specs.Containers.{deposit_data_codec};
ghost use Rattle.block_operations.specs.Indexes.{Indexes};
ghost use Rattle.genesis_maker.specs.inside.Making.{process_on_leaves, with_root};

use crate::deposit_tree::DepositTree;
use bc_words::{NoMemory, Stop};
use beacon_state::State;
use beacon_types::{Deposit, DepositData, DepositProof};
use block_operations::PubkeyIndex;
use block_operations::process_deposit::process_deposit;
use hash_tree::{Leaf, Root};
use std::alloc::Global;

/// What grows deposit by deposit.
#[derive(Drop)]
pub(crate) struct Making {
    /// The state.
    pub(crate) state: State,
    /// The tree of the deposits so far.
    pub(crate) tree: DepositTree,
    /// The index of the state's keys.
    pub(crate) keys: PubkeyIndex,
}

/// Writes the deposit root.
fn set_deposit_root(state: &mut State, root: Root)
    ensures { state.new ≡ with_root state.old root }
{
    let mut eth1_data = state.eth1_data();
    eth1_data.deposit_root = root;
    state.set_eth1_data(eth1_data);
}

/// A deposit with its branch.
fn deposit_of(alloc: Global, branch: &[Root; 33], content: DepositData) -> Result<Deposit, NoMemory>
    ensures { IfOk result (λ deposit. deposit ≡ record { proof = branch.now; content = content }) }
{
    let proof = Vec::from_slice(alloc, branch)?;
    Ok(Deposit {
        proof: DepositProof::from_vec(proof),
        content,
    })
}

/// The next deposit is processed. The index is that of the state's keys before the call, and of those behind it.
pub(crate) fn process_genesis_deposit(
    alloc: Global,
    making: &mut Making,
    deposit: DepositData,
) -> Result<(), Stop>
    requires room { length making.old.tree < 2 ^ 32 }
    requires keys { Indexes making.old.keys making.old.state.validators }
    ensures state { Moves result making.new.state (process_on_leaves making.old.state making.old.tree deposit) }
    ensures tree { OnOk result (making.new.tree ≡ making.old.tree ++ deposit_data_codec.hash_tree_root deposit ∷ []) }
    ensures keys { OnOk result (Indexes making.new.keys making.new.state.validators) }
{
    let index = making.tree.len();
    making.tree.push(deposit.root())?;
    set_deposit_root(&mut making.state, making.tree.root());
    match making.tree.branch(index) {
        Some(branch) => {
            let deposit = deposit_of(alloc, &branch, deposit)?;
            process_deposit(&mut making.state, &deposit, &mut making.keys)
        }
        None => unreachable!(),
    }
}
