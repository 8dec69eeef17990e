//! The root of a state, and that of its latest block. No call here takes memory.

ghost use Rattle.std.specs.Prelude.{◌≡◌};
ghost use Rattle.spec_state.specs.States.{state_codec};
ghost use Rattle.spec_state.specs.Genesis.{header_root_of};

use crate::state::State;
use hash_tree::{Leaf, Root, fields_root};

impl State {
    /// The root of the state (simple-serialize.md, "Merkleization"), which may be kept. It takes no memory.
    pub fn root(&self) -> Root
        ensures { result ≡ (state_codec self.now.preset).hash_tree_root self.now }
    {
        match self.kept_root() {
            Some(root) => root,
            None => self.taken_root(),
        }
    }

    /// The root of the state, over the roots that its lists keep.
    fn taken_root(&self) -> Root
        ensures { result ≡ (state_codec self.now.preset).hash_tree_root self.now }
    {
        fields_root(&[
            self.genesis_time().root(),
            self.genesis_validators_root().root(),
            self.slot().root(),
            self.fork_root(),
            self.latest_block_header().root(),
            self.block_roots().vector_root(),
            self.state_roots().vector_root(),
            self.historical_roots().list_root(),
            self.eth1_data_root(),
            self.eth1_data_votes().list_root(),
            self.eth1_deposit_index().root(),
            self.validators_root(),
            self.balances().list_root(),
            self.randao_mixes().vector_root(),
            self.slashings().vector_root(),
            self.previous_epoch_attestations().variable_list_root(),
            self.current_epoch_attestations().variable_list_root(),
            self.justification_bits().root(),
            self.previous_justified_checkpoint_root(),
            self.current_justified_checkpoint_root(),
            self.finalized_checkpoint_root(),
        ])
    }

    /// The root of the latest block: that of the latest header, whose zero state root is replaced by the state's root
    /// (beacon-chain.md, "process_slot"). It may be kept, and takes no memory.
    pub fn header_root(&self) -> Root
        ensures { result ≡ header_root_of self.now }
    {
        match self.kept_header_root() {
            Some(root) => root,
            None => self.taken_header_root(),
        }
    }

    /// The root of the latest block, by its header.
    #[tactic(auto, unfolding(spec_state::specs::Genesis::header_root_of, spec_state::specs::Genesis::block_header_of))]
    fn taken_header_root(&self) -> Root
        ensures { result ≡ header_root_of self.now }
    {
        let mut header = self.latest_block_header();
        if header.state_root == [0; 32] {
            header.state_root = self.root();
        }
        header.root()
    }
}
