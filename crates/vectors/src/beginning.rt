//! Whether a state begins the histories of a book.

ghost use Rattle.std.specs.Prelude.{◌≡◌, IsTrue, false};
ghost use Rattle.bc_words.specs.Outcome.{done};
ghost use Rattle.beacon_types.specs.Equality.{same_root};
ghost use Rattle.spec_state.specs.Genesis.{zero_root, header_root_of};
ghost use Rattle.spec_state.specs.States.{state_codec};
ghost use Rattle.vectors.specs.Chains.{HasTotal};
ghost use Rattle.forensics.specs.Books.{IsBeginning};

use balance_totals::{current_epoch, total_active};
use beacon_state::{State, genesis_check};
use hash_tree::Root;

/// Whether a root isn't zero.
pub(crate) fn is_set(root: &Root) -> bool
    ensures { IsTrue result → same_root root.now zero_root ≡ false }
{
    *root != [0; 32]
}

/// Whether two roots are the same.
pub(crate) fn is_same(a: &Root, b: &Root) -> bool
    ensures { IsTrue result → a.now ≡ b.now }
{
    *a == *b
}

/// Whether neither the root of the genesis block nor that of its state is zero.
fn roots_are_set(genesis: &State) -> bool
    ensures block { IsTrue result → same_root (header_root_of genesis.now) zero_root ≡ false }
    ensures state { IsTrue result → same_root ((state_codec genesis.now.preset).hash_tree_root genesis.now) zero_root ≡ false }
{
    is_set(&genesis.header_root()) && is_set(&genesis.root())
}

/// Whether the total active balance of the state fits.
fn total_fits(genesis: &State) -> bool
    ensures { IsTrue result → HasTotal genesis.now }
{
    total_active(genesis, current_epoch(genesis)).is_ok()
}

/// Whether the state begins the histories of a book.
pub(crate) fn is_beginning(genesis: &State) -> bool
    ensures { IsTrue result → IsBeginning genesis.now }
{
    let checked = genesis_check(genesis).is_ok();
    let fits = total_fits(genesis);
    let set = roots_are_set(genesis);
    checked && fits && set
}
