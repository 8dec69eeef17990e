//! Genesis from deposits (beacon-chain.md, "Genesis"): the file of deposits, the tree of the deposits so far, and the state that
//! they make.
#![tactic(auto)]

mod activations;
mod branch;
mod deposit_tree;
mod deposits;
mod deposits_file;
mod initialize_beacon_state_from_eth1;
mod layer;
mod process_genesis_deposit;
mod push;
mod state_before_deposits;
mod stops;

pub use deposit_tree::DepositTree;
pub use deposits::{DEPOSIT_LEN, Deposits};
pub use deposits_file::{
    DEPOSITS_HEAD_LEN, DepositsFile, MAX_DEPOSITS_LEN, genesis_of_file, read_deposits_file,
};
pub use initialize_beacon_state_from_eth1::make_genesis;
pub use layer::Layer;
pub use stops::{DepositsStop, MakeStop};
