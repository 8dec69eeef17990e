//! The head of the chain (fork-choice.md, "get_head"), looked up in the array of nodes.

ghost use Rattle.std.specs.Prelude.{◌≡◌, ◌+◌, ◌≤◌};
ghost use Rattle.spec_fork_choice.specs.GetHead.{get_head};
ghost use Rattle.block_array.specs.Calls.{made};
ghost use Rattle.block_array.specs.Work.{steps_of};
ghost use Rattle.fork_store.specs.Arrays.{IsArrayOf};

use crate::get_ancestor::root_at;
use crate::store::Store;
use crate::store_fields::StoreFields;
use bc_words::Steps;
use block_array::BlockArray;
use hash_tree::Root;
use std::sync::ledger::Ledger;

/// The root of the head: from the justified block go to the viable child of the greatest weight, of the greatest root among
/// those of one weight, as long as there is one (fork-choice.md, `get_head`). It takes no memory, and leaves the store's array
/// up to date. A step is the delta of one validator, or one visit of a node.
#[tactic(auto, using(crate::proofs::Heads::heading))]
fn get_head<L: Ledger>(store: &StoreFields, array: &mut BlockArray, steps: &mut Steps<L>) -> Root
    requires { IsArrayOf store.now array.old }
    ensures root { result ≡ get_head store.now }
    ensures up_to_date { array.new ≡ made array.old }
    ensures steps { steps.new ≤ steps.old + steps_of array.old }
{
    store.is_sound();
    array.apply(steps);
    let number = array.head();
    root_at(store.blocks().roots(), number as usize)
}

impl Store {
    /// The root of the head: from the justified block go to the viable child of the greatest weight, of the greatest root among
    /// those of one weight, as long as there is one (fork-choice.md, `get_head`). It takes no memory, leaves the array
    /// applied, and the fields and the keeper as they are. A step is the delta of one validator, or one visit of a node.
    pub fn head<L: Ledger>(&mut self, steps: &mut Steps<L>) -> Root
        ensures root { result ≡ get_head self.old.plain }
        ensures same { self.new.plain ≡ self.old.plain }
        ensures keeper { self.new.keeper ≡ self.old.keeper }
        ensures up_to_date { self.new.array ≡ made self.old.array }
        ensures steps { steps.new ≤ steps.old + steps_of self.old.array }
    {
        get_head(&self.fields, &mut self.array, steps)
    }
}
