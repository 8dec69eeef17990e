//! The law that a genesis of a book begins histories. Nothing here does anything when it runs.

ghost use Rattle.std.specs.Prelude.{◌≡◌, length};
ghost use Rattle.safety_law.specs.Histories.{Begins};
ghost use Rattle.forensics.specs.Books.{IsBeginning};

use beacon_state::State;

/// A state has four justification bits.
fn has_four_bits(state: &State)
    ensures { length state.now.justification_bits ≡ 4 }
{
    let bits = state.justification_bits();
    let _current = bits[0];
}

/// A state that begins a book's histories is at slot 0, with nothing justified, and its latest block is the genesis block.
pub(crate) fn begins(genesis: &State)
    requires { IsBeginning genesis.now }
    ensures { Begins genesis.now }
{
    let _preset = genesis.preset();
    let _roots = genesis.block_roots_len();
    has_four_bits(genesis);
}
