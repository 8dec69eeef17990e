//! What is of a whole list or of the whole state: all values of a list written at once or many of them, the roots of the vectors of roots, and the
//! state's root and that of its latest block where they are kept.

ghost use Rattle.std.specs.Prelude.{◌≡◌, ◌≤◌, length};
ghost use Rattle.std.specs.Option.{IfSome};
ghost use Rattle.bc_words.specs.Outcome.{Becomes};
ghost use Rattle.ssz_codec.specs.Basic.{bytes32};
ghost use Rattle.ssz_codec.specs.Lists.{vector_codec};
ghost use Rattle.spec_state.specs.States.{state_codec};
ghost use Rattle.spec_state.specs.Genesis.{header_root_of};
ghost use Rattle.tree_nodes.specs.Changes.{AreChanges};
ghost use Rattle.validator_registry.specs.Registries.{with_balances};

use super::{KeptRoot, State, registry};
use active_sets::ActiveLists;
use bc_words::NoMemory;
use beacon_types::Validator;
use hash_tree::Root;

impl State {
    /// Writes the whole registry. Where memory is refused, the state is as before.
    pub fn set_validators(&mut self, validators: Vec<Validator>) -> Result<(), NoMemory>
        requires { length validators.items ≤ self.old.preset.validator_registry_limit }
        ensures { Becomes result self.old self.new (record self.old { validators = validators.items }) }
    {
        self.fields.kept_root = None;
        self.fields.active_lists = ActiveLists::none();
        self.fields.validators.replace(validators)
    }

    /// Writes other effective balances at many places, in Gwei. Where memory is refused, the state is as before.
    #[tactic(auto, using(validator_registry::proofs::GroupChanges::balance_lengths))]
    pub fn set_effective_balances(&mut self, changes: Vec<(u64, u64)>) -> Result<(), NoMemory>
        requires { AreChanges 0 (length self.old.validators) changes.items }
        ensures { Becomes result self.old self.new (record self.old { validators = with_balances self.old.validators changes.items }) }
    {
        let fields = &mut *self.fields;
        fields.kept_root = None;
        registry::set_effective_balances(&mut fields.validators, &mut fields.active_lists, changes)
    }

    /// Writes all balances, in Gwei. Where memory is refused, the state is as before.
    pub fn set_balances(&mut self, balances: Vec<u64>) -> Result<(), NoMemory>
        requires { length balances.items ≤ self.old.preset.validator_registry_limit }
        ensures { Becomes result self.old self.new (record self.old { balances = balances.items }) }
    {
        self.fields.kept_root = None;
        self.fields.balances.replace(balances)
    }

    /// The root of the vector of the roots of the latest blocks. It is kept.
    pub fn block_roots_root(&self) -> Root
        ensures { result ≡ (vector_codec bytes32 self.now.preset.slots_per_historical_root).hash_tree_root self.now.block_roots }
    {
        self.block_roots().vector_root()
    }

    /// The root of the vector of the roots of the latest states. It is kept.
    pub fn state_roots_root(&self) -> Root
        ensures { result ≡ (vector_codec bytes32 self.now.preset.slots_per_historical_root).hash_tree_root self.now.state_roots }
    {
        self.state_roots().vector_root()
    }

    /// The root of the state, where it is kept.
    pub(crate) fn kept_root(&self) -> Option<Root>
        ensures { IfSome result (λ root. root ≡ (state_codec self.now.preset).hash_tree_root self.now) }
    {
        match self.fields.kept_root {
            Some(kept) => Some(kept.root),
            None => None,
        }
    }

    /// The root of the latest block, where it is kept.
    pub(crate) fn kept_header_root(&self) -> Option<Root>
        ensures { IfSome result (λ root. root ≡ header_root_of self.now) }
    {
        match self.fields.kept_root {
            Some(kept) => kept.header,
            None => None,
        }
    }

    /// The root of the state (simple-serialize.md, "Merkleization"), which is kept until a field changes: `root` answers it
    /// without a hash, and so it does for what is shared from here on. It takes no memory.
    pub fn keep_root(&mut self) -> Root
        ensures same { self.new ≡ self.old }
        ensures root { result ≡ (state_codec self.old.preset).hash_tree_root self.old }
    {
        let root = self.root();
        let header = self.kept_header_root();
        self.fields.kept_root = Some(KeptRoot { root, header });
        root
    }

    /// The root of the latest block (beacon-chain.md, "process_slot"), which is kept as that of the state is, and with it: `header_root`
    /// answers it without a hash.
    pub fn keep_header_root(&mut self) -> Root
        ensures same { self.new ≡ self.old }
        ensures root { result ≡ header_root_of self.old }
    {
        let root = self.root();
        let header = self.header_root();
        self.fields.kept_root = Some(KeptRoot {
            root,
            header: Some(header),
        });
        header
    }
}
